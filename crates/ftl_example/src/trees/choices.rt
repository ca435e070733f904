//! Which class is taken for what is wanted, and with which kids.
ghost use Rattle.std.specs.Prelude.{◌≡◌, ◌≤◌, length, map, Option};
ghost use Rattle.ftl_deps.specs.reads.Meant.{meant};
ghost use Rattle.ftl_example.specs.pairs.PairMeant.{pair_meant};
ghost use Rattle.ftl_example.specs.sizes.KidsMeant.{kid_meant, kids_meant};
ghost use Rattle.ftl_example.specs.sizes.Place as place;
ghost use Rattle.ftl_example.specs.sizes.PlaceTable.{IsKnownPair};
ghost use Rattle.ftl_example.specs.sizes.SizeTable.{by_table};
ghost use Rattle.ftl_example.specs.trees.CountedChoices as counted;
ghost use Rattle.ftl_example.specs.trees.ExampleTree as wanted;
ghost use Rattle.ftl_example.specs.trees.Grown.{is_size};
ghost use Rattle.ftl_example.specs.trees.WantsMeant.{choices_of, want_meant, wants_meant};
ghost use Rattle.ftl_meaning.specs.faults.Numbering.{class_at};

use crate::pairs::{RefusedPair, WriterNode};
use crate::sizes::{
    Kid, Kids, child_count, is_for, is_list, reader_kids, singles, size_at, sum, way_size, ways,
};
use crate::trees::tables::Tables;
use crate::trees::want::{Want, Wants};
use ftl_checked::Checked;

/// The class for what is wanted of an interface.
#[tactic(auto, using(crate::proofs::pairs::InfoClass::class_is))]
pub(crate) fn class_for(
    checked: &Checked,
    pair: RefusedPair,
    tables: &Tables,
    want: Want,
    interface: u32,
) -> u32
    ensures class { result ≡ (choices_of (meant checked.now) (pair_meant pair) tables.now).class_for
        (want_meant want) interface }
{
    match want {
        Want::AnyTree => least_class(checked, tables, interface, checked.class_count()),
        Want::ClassTree(class) => class,
        Want::ReaderTree => pair.reader.class,
        Want::PlaceTree => place_class(pair),
        Want::WayTree => {
            if is_place(tables, interface) {
                place_class(pair)
            } else {
                way_class(checked, tables, interface, checked.class_count())
            }
        }
    }
}

/// The kids in a child of what is wanted of an interface.
pub(crate) fn kids_for(
    checked: &Checked,
    pair: RefusedPair,
    tables: &Tables,
    want: Want,
    interface: u32,
    child: u32,
) -> Wants
    requires pair { IsKnownPair (meant checked.now) pair }
    ensures kids { wants_meant result
        ≡ (choices_of (meant checked.now) (pair_meant pair) tables.now).kids_for
        (want_meant want) interface child }
{
    match want {
        Want::AnyTree => {
            let class = least_class(checked, tables, interface, checked.class_count());
            single_want(checked, class, child)
        }
        Want::ClassTree(class) => single_want(checked, class, child),
        Want::ReaderTree => wants_of(reader_kids(checked, pair, child)),
        Want::PlaceTree => place_wants(checked, pair, child),
        Want::WayTree => {
            if is_place(tables, interface) {
                place_wants(checked, pair, child)
            } else {
                way_wants(checked, tables, interface, child)
            }
        }
    }
}

// The kids of a node that the way goes through.
fn way_wants(checked: &Checked, tables: &Tables, interface: u32, child: u32) -> Wants
    ensures kids { wants_meant result ≡ wanted.on_way (meant checked.now)
        (counted.way_of 513 (meant checked.now) (by_table tables.now.sizes.items)
        (by_table tables.now.ways.items) interface)
        (counted.child_of_way 513 (meant checked.now) (by_table tables.now.sizes.items)
        (by_table tables.now.ways.items)
        (counted.way_of 513 (meant checked.now) (by_table tables.now.sizes.items)
        (by_table tables.now.ways.items) interface) interface)
        child }
{
    let class = way_class(checked, tables, interface, checked.class_count());
    if child
        == way_child(
            checked,
            tables,
            class,
            interface,
            child_count(checked, class),
        )
    {
        Wants::One(Want::WayTree)
    } else {
        single_want(checked, class, child)
    }
}

// The kids of the place.
#[tactic(auto, using(crate::proofs::pairs::InfoClass::class_is))]
fn place_wants(checked: &Checked, pair: RefusedPair, child: u32) -> Wants
    requires pair { IsKnownPair (meant checked.now) pair }
    ensures kids { wants_meant result ≡ wanted.place_kids (meant checked.now)
        (pair_meant pair).runs_at (pair_meant pair) child }
{
    match pair.runs_at {
        WriterNode::Same | WriterNode::Kid => wants_of(reader_kids(checked, pair, child)),
        WriterNode::Parent => writer_wants(checked, pair, child),
    }
}

// The kids of the writer's node, which has the reader's as a kid.
#[tactic(auto, using(crate::proofs::pairs::InfoClass::class_is))]
fn writer_wants(checked: &Checked, pair: RefusedPair, child: u32) -> Wants
    ensures kids { wants_meant result ≡ map wanted.want_or
        (place.writer_kids (meant checked.now) (pair_meant pair).writer child) }
{
    if is_for(pair.writer, child) {
        Wants::One(Want::ReaderTree)
    } else {
        single_want(checked, pair.writer.class, child)
    }
}

// A least tree in a child that is no list.
fn single_want(checked: &Checked, class: u32, child: u32) -> Wants
    ensures kids { wants_meant result
        ≡ place.singles_alone (meant checked.now) wanted.any_tree class child }
{
    if is_list(checked, class, child) {
        Wants::Nothing
    } else {
        Wants::One(Want::AnyTree)
    }
}

fn wants_of(kids: Kids) -> Wants
    ensures wants { wants_meant result ≡ map wanted.want_of (kids_meant kids) }
{
    match kids {
        Kids::Nothing => Wants::Nothing,
        Kids::One(kid) => Wants::One(want_of(kid)),
        Kids::Two(kid, later) => Wants::Two(want_of(kid), want_of(later)),
    }
}

fn want_of(kid: Kid) -> Want
    ensures want { want_meant result ≡ wanted.want_of (kid_meant kid) }
{
    match kid {
        Kid::Any => Want::AnyTree,
        Kid::OfClass(class) => Want::ClassTree(class),
    }
}

// The class of the place.
#[tactic(auto, using(crate::proofs::pairs::InfoClass::class_is))]
fn place_class(pair: RefusedPair) -> u32
    ensures class { result ≡ wanted.place_class (pair_meant pair).runs_at (pair_meant pair) }
{
    match pair.runs_at {
        WriterNode::Same | WriterNode::Kid => pair.reader.class,
        WriterNode::Parent => pair.writer.class,
    }
}

// Whether the way ends at a node of the interface.
fn is_place(tables: &Tables, interface: u32) -> bool
    ensures place { result ≡ is_size (by_table tables.now.starts.items interface)
        (by_table tables.now.ways.items interface) }
{
    is_size(
        size_at(&tables.starts, interface),
        size_at(&tables.ways, interface),
    )
}

fn is_size(size: Option<u32>, other: Option<u32>) -> bool
    ensures same { result ≡ is_size size other }
{
    match (size, other) {
        (Some(size), Some(other)) => size == other,
        (None, None) => true,
        _ => false,
    }
}

// The last of the first classes that is of the interface and has its least size.
fn least_class(checked: &Checked, tables: &Tables, interface: u32, classes: u32) -> u32
    requires known { classes ≤ length checked.now.grammar.classes }
    ensures class { result ≡ counted.least_class_up_to 513 (meant checked.now)
        (by_table tables.now.sizes.items) interface classes }
{
    if classes == 0 {
        return 0;
    }
    let class = classes - 1;
    if checked.interface_of(class) == interface {
        let below = singles(checked, &tables.sizes, class, checked.child_count(class));
        if is_size(sum(Some(1), below), size_at(&tables.sizes, interface)) {
            return class;
        }
    }
    least_class(checked, tables, interface, class)
}

// The last of the first classes that is of the interface and has a way of its size.
fn way_class(checked: &Checked, tables: &Tables, interface: u32, classes: u32) -> u32
    requires known { classes ≤ length checked.now.grammar.classes }
    ensures class { result ≡ counted.way_class_up_to 513 (meant checked.now)
        (by_table tables.now.sizes.items) (by_table tables.now.ways.items) interface classes }
{
    if classes == 0 {
        return 0;
    }
    let class = classes - 1;
    if checked.interface_of(class) == interface {
        let children = checked.child_count(class);
        let size = ways(checked, &tables.sizes, &tables.ways, class, children);
        if is_size(size, size_at(&tables.ways, interface)) {
            return class;
        }
    }
    way_class(checked, tables, interface, class)
}

// The last of the first children through which a way has that size.
fn way_child(checked: &Checked, tables: &Tables, class: u32, interface: u32, children: u32) -> u32
    requires children { children ≤ length (class_at checked.now.grammar class).children }
    ensures child { result ≡ counted.way_child_up_to 513 (meant checked.now)
        (by_table tables.now.sizes.items) (by_table tables.now.ways.items)
        class interface children }
{
    if children == 0 || class >= checked.class_count() {
        return 0;
    }
    let child = children - 1;
    let size = way_size(checked, &tables.sizes, &tables.ways, class, child);
    if is_size(size, size_at(&tables.ways, interface)) {
        return child;
    }
    way_child(checked, tables, class, interface, child)
}
