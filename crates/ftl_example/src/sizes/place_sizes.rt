//! The least size of the place of a pair.
ghost use Rattle.std.specs.Prelude.{◌≡◌, ◌<◌, ◌≤◌, ℕ, length, map, IfOk};
ghost use Rattle.std.specs.List.{range_with_len};
ghost use Rattle.ftl_deps.specs.reads.Meant.{meant};
ghost use Rattle.ftl_deps.specs.reads.Products.{name_of_info};
ghost use Rattle.ftl_example.specs.pairs.PairMeant.{GoesOver, pair_meant};
ghost use Rattle.ftl_example.specs.sizes.KidsMeant as meant_kids;
ghost use Rattle.ftl_example.specs.sizes.Limited as limited;
ghost use Rattle.ftl_example.specs.sizes.Place as place;
ghost use Rattle.ftl_example.specs.sizes.PlaceTable.{IsKnownPair, start_table};
ghost use Rattle.ftl_example.specs.sizes.SizeTable.{by_table};
ghost use Rattle.ftl_meaning.specs.faults.Numbering.{class_at};

use crate::pairs::{RefusedPair, WriterNode};
use crate::sizes::counted::sum;
use crate::sizes::kid::{Kid, Kids};
use crate::sizes::node_kids::{is_for, reader_kids};
use crate::sizes::rounds::size_at;
use ftl_checked::Checked;
use std::alloc::{AllocError, Global};

/// The least size of the place of a pair, for each interface.
pub(crate) fn place_sizes(
    alloc: Global,
    checked: &Checked,
    sizes: &[Option<u32>],
    pair: RefusedPair,
) -> Result<Vec<Option<u32>>, AllocError>
    requires pair { IsKnownPair (meant checked.now) pair }
    ensures sizes { IfOk result (λ v. v.items
        ≡ start_table (meant checked.now) 513 (pair_meant pair) sizes.now) }
{
    let _ = checked.grammar();
    let count = checked.interface_count();
    let mut starts = Vec::with_capacity(alloc, count as usize)?;
    for interface in 0..count {
        starts.push(place_size(checked, sizes, pair, interface))?;
    }
    Ok(starts)
}

// The least size of the place, as a node of the interface.
fn place_size(
    checked: &Checked,
    sizes: &[Option<u32>],
    pair: RefusedPair,
    interface: u32,
) -> Option<u32>
    requires pair { IsKnownPair (meant checked.now) pair }
    ensures size { result ≡ limited.place_size_up_to 513 (meant checked.now)
        (by_table sizes.now) (pair_meant pair).runs_at (pair_meant pair) interface }
{
    match pair.runs_at {
        WriterNode::Same | WriterNode::Kid => reader_size(checked, sizes, pair, interface),
        WriterNode::Parent => writer_size(checked, sizes, pair, interface),
    }
}

// The least size of the reader's node.
fn reader_size(
    checked: &Checked,
    sizes: &[Option<u32>],
    pair: RefusedPair,
    interface: u32,
) -> Option<u32>
    requires pair { IsKnownPair (meant checked.now) pair }
    ensures size { result ≡ limited.reader_size_up_to 513 (meant checked.now)
        (by_table sizes.now) (pair_meant pair) interface }
{
    reader_node_size(checked, sizes, pair, interface)
}

// The same, by the reader's class.
fn reader_node_size(
    checked: &Checked,
    sizes: &[Option<u32>],
    pair: RefusedPair,
    interface: u32,
) -> Option<u32>
    requires pair { IsKnownPair (meant checked.now) pair }
    ensures size { result ≡ limited.wanted_size_up_to 513 (meant checked.now)
        (limited.kid_sizes_up_to 513 (meant checked.now) (by_table sizes.now))
        (place.reader_kids (meant checked.now) (pair_meant pair))
        pair.reader.class interface }
{
    let class = pair.reader.class;
    if checked.interface_of(class) != interface {
        return None;
    }
    sum(
        Some(1),
        reader_below(checked, sizes, pair, checked.child_count(class)),
    )
}

// Of what stands below it, in the first children.
fn reader_below(
    checked: &Checked,
    sizes: &[Option<u32>],
    pair: RefusedPair,
    children: u32,
) -> Option<u32>
    requires pair { IsKnownPair (meant checked.now) pair }
    requires children { children
        ≤ length (class_at checked.now.grammar pair.reader.class).children }
    ensures size { result ≡ limited.below_size_up_to 513 (meant checked.now)
        (limited.kid_sizes_up_to 513 (meant checked.now) (by_table sizes.now))
        (place.reader_kids (meant checked.now) (pair_meant pair))
        pair.reader.class children }
{
    if children == 0 {
        return Some(0);
    }
    let child = children - 1;
    let before = reader_below(checked, sizes, pair, child);
    let interface = checked.child(pair.reader.class, child).interface;
    let kids = reader_kids(checked, pair, child);
    sum(kids_size(checked, sizes, kids, interface), before)
}

// The sizes of some kids, in all.
fn kids_size(checked: &Checked, sizes: &[Option<u32>], kids: Kids, interface: u32) -> Option<u32>
    requires known { meant_kids.AreKnownKids (length checked.now.grammar.classes) kids }
    ensures size { result ≡ limited.kids_size_up_to 513
        (limited.kid_sizes_up_to 513 (meant checked.now) (by_table sizes.now))
        interface (meant_kids.kids_meant kids) }
{
    match kids {
        Kids::Nothing => Some(0),
        Kids::One(kid) => sum(kid_size(checked, sizes, kid, interface), Some(0)),
        Kids::Two(kid, later) => {
            let rest = sum(kid_size(checked, sizes, later, interface), Some(0));
            sum(kid_size(checked, sizes, kid, interface), rest)
        }
    }
}

// The least size of a kid.
fn kid_size(checked: &Checked, sizes: &[Option<u32>], kid: Kid, interface: u32) -> Option<u32>
    requires known { meant_kids.IsKnownKid (length checked.now.grammar.classes) kid }
    ensures size { result ≡ limited.kid_sizes_up_to 513 (meant checked.now)
        (by_table sizes.now) (meant_kids.kid_meant kid) interface }
{
    match kid {
        Kid::Any => size_at(sizes, interface),
        Kid::OfClass(class) => {
            if checked.interface_of(class) != interface {
                return None;
            }
            sum(
                Some(1),
                singles_below(checked, sizes, class, checked.child_count(class)),
            )
        }
    }
}

// The sizes of the first children of a class that are no lists, each as the only kid of its child.
fn singles_below(checked: &Checked, sizes: &[Option<u32>], class: u32, children: u32) -> Option<u32>
    requires class { class < length checked.now.grammar.classes }
    requires children { children ≤ length (class_at checked.now.grammar class).children }
    ensures size { result ≡ limited.below_size_up_to 513 (meant checked.now)
        (λ (x : place.Kid). by_table sizes.now)
        (place.singles_alone (meant checked.now) place.any class) class children }
{
    if children == 0 {
        return Some(0);
    }
    let child = checked.child(class, children - 1);
    let before = singles_below(checked, sizes, class, children - 1);
    if child.many {
        sum(Some(0), before)
    } else {
        sum(sum(size_at(sizes, child.interface), Some(0)), before)
    }
}

// The least size of the writer's node, which has the reader's as a kid.
fn writer_size(
    checked: &Checked,
    sizes: &[Option<u32>],
    pair: RefusedPair,
    interface: u32,
) -> Option<u32>
    requires pair { IsKnownPair (meant checked.now) pair }
    ensures size { result ≡ limited.wanted_size_up_to 513 (meant checked.now)
        (place.reader_or_size
        (limited.reader_size_up_to 513 (meant checked.now) (by_table sizes.now)
        (pair_meant pair)) (by_table sizes.now))
        (place.writer_kids (meant checked.now) (name_of_info pair.writer))
        pair.writer.class interface }
{
    let class = pair.writer.class;
    if checked.interface_of(class) != interface {
        return None;
    }
    sum(
        Some(1),
        writer_below(checked, sizes, pair, checked.child_count(class)),
    )
}

// Of what stands below it, in the first children.
fn writer_below(
    checked: &Checked,
    sizes: &[Option<u32>],
    pair: RefusedPair,
    children: u32,
) -> Option<u32>
    requires pair { IsKnownPair (meant checked.now) pair }
    requires children { children
        ≤ length (class_at checked.now.grammar pair.writer.class).children }
    ensures size { result ≡ limited.below_size_up_to 513 (meant checked.now)
        (place.reader_or_size
        (limited.reader_size_up_to 513 (meant checked.now) (by_table sizes.now)
        (pair_meant pair)) (by_table sizes.now))
        (place.writer_kids (meant checked.now) (name_of_info pair.writer))
        pair.writer.class children }
{
    if children == 0 {
        return Some(0);
    }
    let place = children - 1;
    let before = writer_below(checked, sizes, pair, place);
    let child = checked.child(pair.writer.class, place);
    if is_for(pair.writer, place) {
        sum(
            sum(reader_size(checked, sizes, pair, child.interface), Some(0)),
            before,
        )
    } else if child.many {
        sum(Some(0), before)
    } else {
        sum(sum(size_at(sizes, child.interface), Some(0)), before)
    }
}
