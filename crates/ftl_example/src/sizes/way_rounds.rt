//! The least sizes of trees that have the place of a pair, by rounds.
ghost use Rattle.std.specs.Prelude.{◌≡◌, ◌<◌, ◌≤◌, length, IfOk};
ghost use Rattle.ftl_deps.specs.reads.Meant.{meant};
ghost use Rattle.ftl_example.specs.sizes.Limited as limited;
ghost use Rattle.ftl_example.specs.sizes.PlaceTable.{next_ways, ways_after};
ghost use Rattle.ftl_example.specs.sizes.SizeTable.{by_table};
ghost use Rattle.ftl_meaning.specs.faults.Numbering.{class_at};

use crate::sizes::counted::{lesser, sum};
use crate::sizes::rounds::size_at;
use ftl_checked::Checked;
use std::alloc::{AllocError, Global};

/// The table after so many rounds: from the sizes of the place, and the least sizes of all trees.
pub(crate) fn ways_after(
    alloc: Global,
    checked: &Checked,
    sizes: &[Option<u32>],
    starts: &[Option<u32>],
    rounds: u32,
) -> Result<Vec<Option<u32>>, AllocError>
    ensures sizes { IfOk result (λ v. v.items
        ≡ ways_after (meant checked.now) 513 sizes.now starts.now rounds) }
{
    if rounds == 0 {
        let mut first = Vec::with_capacity(alloc, starts.len())?;
        first.extend_from_slice(starts)?;
        Ok(first)
    } else {
        let before = ways_after(alloc, checked, sizes, starts, rounds - 1)?;
        next_ways(alloc, checked, sizes, starts, &before)
    }
}

// One round more.
fn next_ways(
    alloc: Global,
    checked: &Checked,
    sizes: &[Option<u32>],
    starts: &[Option<u32>],
    before: &[Option<u32>],
) -> Result<Vec<Option<u32>>, AllocError>
    ensures sizes { IfOk result (λ v. v.items
        ≡ next_ways (meant checked.now) 513 sizes.now starts.now before.now) }
{
    let _ = checked.grammar();
    let count = checked.interface_count();
    let mut next = Vec::with_capacity(alloc, count as usize)?;
    for interface in 0..count {
        let way = best_way(checked, sizes, before, interface, checked.class_count());
        next.push(lesser(size_at(starts, interface), way))?;
    }
    Ok(next)
}

// The least over the first classes that are of the interface.
fn best_way(
    checked: &Checked,
    sizes: &[Option<u32>],
    next: &[Option<u32>],
    interface: u32,
    classes: u32,
) -> Option<u32>
    requires known { classes ≤ length checked.now.grammar.classes }
    ensures best { result ≡ limited.best_way_up_to 513 (meant checked.now)
        (by_table sizes.now) (by_table next.now) interface classes }
{
    if classes == 0 {
        return None;
    }
    let class = classes - 1;
    let before = best_way(checked, sizes, next, interface, class);
    if checked.interface_of(class) == interface {
        lesser(
            before,
            ways(checked, sizes, next, class, checked.child_count(class)),
        )
    } else {
        before
    }
}

/// The least over the first children of a class.
pub(crate) fn ways(
    checked: &Checked,
    sizes: &[Option<u32>],
    next: &[Option<u32>],
    class: u32,
    children: u32,
) -> Option<u32>
    requires known { class < length checked.now.grammar.classes }
    requires children { children ≤ length (class_at checked.now.grammar class).children }
    ensures ways { result ≡ limited.ways_up_to 513 (meant checked.now)
        (by_table sizes.now) (by_table next.now) class children }
{
    if children == 0 {
        return None;
    }
    let child = children - 1;
    let before = ways(checked, sizes, next, class, child);
    lesser(before, way_size(checked, sizes, next, class, child))
}

/// The size of a node of the class with a way through one of its children.
pub(crate) fn way_size(
    checked: &Checked,
    sizes: &[Option<u32>],
    next: &[Option<u32>],
    class: u32,
    child: u32,
) -> Option<u32>
    requires known { class < length checked.now.grammar.classes }
    requires child { child < length (class_at checked.now.grammar class).children }
    ensures size { result ≡ limited.way_size_up_to 513 (meant checked.now)
        (by_table sizes.now) (by_table next.now) class child }
{
    let beside = others(checked, sizes, class, child, checked.child_count(class));
    let below = size_at(next, checked.child(class, child).interface);
    sum(Some(1), sum(below, beside))
}

// The sizes of the first children that are no lists, but one.
fn others(
    checked: &Checked,
    sizes: &[Option<u32>],
    class: u32,
    skipped: u32,
    children: u32,
) -> Option<u32>
    requires known { class < length checked.now.grammar.classes }
    requires children { children ≤ length (class_at checked.now.grammar class).children }
    ensures others { result ≡ limited.others_up_to 513 (meant checked.now)
        (by_table sizes.now) class skipped children }
{
    if children == 0 {
        return Some(0);
    }
    let child = children - 1;
    let before = others(checked, sizes, class, skipped, child);
    if child == skipped {
        return before;
    }
    let info = checked.child(class, child);
    if info.many {
        before
    } else {
        sum(size_at(sizes, info.interface), before)
    }
}
