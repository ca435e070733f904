//! Pairs that become edges of a class.

ghost use Rattle.std.specs.Prelude.{◌≡◌, ◌<◌, false, true, OnOk};
ghost use Rattle.ftl_model.specs.layout.AttributeGrammar.{AttributeGrammar};
ghost use Rattle.lane_rows.specs.Matrix.{entry};
ghost use Rattle.ftl_noncircular.specs.grammars.Noncircular.{of_child};
ghost use Rattle.ftl_noncircular.specs.walks.WalkTables.{LeadNoFurther};
ghost use Rattle.ftl_noncircular.specs.search.Numbers.{number};
ghost use Rattle.ftl_noncircular.specs.search.Pairs.{AreSearched, AreWalksOf, HasPair};
ghost use Rattle.ftl_noncircular.specs.search.Pairs.{IsLonger, IsPair, IsPairListOf, KeepsEntries};
ghost use Rattle.ftl_noncircular.specs.search.Shapes.{IsShapeOf};

use crate::search::notes::note;
use crate::search::pair_list::{Pair, PairList};
use crate::search::shape::Shape;
use crate::walks::Walks;
use std::alloc::AllocError;

/// Puts a pair into a class, as an edge in each child of its interface, and finds the pairs that
/// the class then shows.
pub(crate) fn put_pair(
    shape: &Shape,
    class: u32,
    pair: Pair,
    walks: &mut Walks,
    list: &mut PairList,
) -> Result<(), AllocError>
    ghost g: { AttributeGrammar }
    requires shape { IsShapeOf g shape.now }
    requires class { class < g.class_count }
    requires pair { IsPair g pair }
    requires searched { AreSearched g shape.now list.old.has class walks.old }
    requires list { IsPairListOf g list.old }
    ensures searched { OnOk result (AreSearched g shape.now list.new.has class walks.new) }
    ensures list { OnOk result (IsPairListOf g list.new) }
    ensures longer { OnOk result (IsLonger list.old list.new) }
    ensures kept { KeepsEntries walks.old.edges walks.new.edges }
    ensures put { HasPair g shape.now walks.new.edges class pair }
{
    if put_edges(shape, class, pair, walks) {
        note(shape, class, walks, list)?;
    }
    Ok(())
}

/// Puts the edges of a pair; whether walks may lead to more than before.
fn put_edges(shape: &Shape, class: u32, pair: Pair, walks: &mut Walks) -> bool
    ghost g: { AttributeGrammar }
    requires shape { IsShapeOf g shape.now }
    requires class { class < g.class_count }
    requires pair { IsPair g pair }
    requires walks { AreWalksOf g shape.now class walks.old }
    ensures walks { AreWalksOf g shape.now class walks.new }
    ensures kept { KeepsEntries walks.old.edges walks.new.edges }
    ensures put { HasPair g shape.now walks.new.edges class pair }
    ensures same { result ≡ false → LeadNoFurther walks.old walks.new }
{
    let mut grown = false;
    for child in 0..shape.kids_of(class).len() {
        grown = grown | put_edge(shape, class, child as u32, pair, walks);
    }
    grown
}

/// Puts the edge of a pair in this child, where it is of the pair's interface; whether walks may
/// lead to more than before.
fn put_edge(shape: &Shape, class: u32, child: u32, pair: Pair, walks: &mut Walks) -> bool
    ghost g: { AttributeGrammar }
    requires shape { IsShapeOf g shape.now }
    requires class { class < g.class_count }
    requires child { child < g.child_count class }
    requires pair { IsPair g pair }
    requires walks { AreWalksOf g shape.now class walks.old }
    ensures walks { AreWalksOf g shape.now class walks.new }
    ensures kept { KeepsEntries walks.old.edges walks.new.edges }
    ensures put { g.child_interface class child ≡ pair.interface
        → entry walks.new.edges (number shape.now.places (of_child child pair.from))
        (number shape.now.places (of_child child pair.to)) ≡ true }
    ensures same { result ≡ false → LeadNoFurther walks.old walks.new }
{
    if shape.kids_of(class)[child as usize].interface != pair.interface {
        return false;
    }
    let from = shape.child_vertex(child, pair.from);
    let to = shape.child_vertex(child, pair.to);
    walks.put(from, to)
}
