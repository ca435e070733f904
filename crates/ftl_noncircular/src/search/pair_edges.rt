//! The edges of all pairs in the matrix of a class.

ghost use Rattle.std.specs.Prelude.{◌≡◌, ◌<◌, Bool, true, length};
ghost use Rattle.ftl_model.specs.layout.AttributeGrammar.{AttributeGrammar};
ghost use Rattle.lane_rows.specs.Matrix.{entry};
ghost use Rattle.ftl_noncircular.specs.grammars.Noncircular.{IsClosed, family_of, of_child};
ghost use Rattle.ftl_noncircular.specs.search.Numbers.{number, vertex_count};
ghost use Rattle.ftl_noncircular.specs.search.Pairs.{HasPair, IsPair, IsPairListOf, KeepsEntries};
ghost use Rattle.ftl_noncircular.specs.search.Searches.{HasEdges, HasReads};
ghost use Rattle.ftl_noncircular.specs.search.Shapes.{IsShapeOf};

use crate::search::pair_list::{Pair, PairList};
use crate::search::shape::Shape;
use lane_rows::BitMatrix;

/// Adds the edges of all pairs to those of the reads of a class.
pub(crate) fn add_pairs(shape: &Shape, class: u32, list: &PairList, edges: &mut BitMatrix)
    ghost g: { AttributeGrammar }
    requires shape { IsShapeOf g shape.now }
    requires class { class < g.class_count }
    requires list { IsPairListOf g list.now }
    requires closed { IsClosed g (family_of (entry list.now.has)) }
    requires size { length edges.old ≡ vertex_count g class }
    ensures edges { (prevs : Bool) → HasReads g shape.now.places prevs class edges.old
        → HasEdges g shape.now.places prevs class edges.new }
{
    for pair in list.pairs.as_slice() {
        add_pair(shape, class, *pair, edges);
    }
}

/// Adds the edges of a pair.
fn add_pair(shape: &Shape, class: u32, pair: Pair, edges: &mut BitMatrix)
    ghost g: { AttributeGrammar }
    requires shape { IsShapeOf g shape.now }
    requires class { class < g.class_count }
    requires pair { IsPair g pair }
    requires size { length edges.old ≡ vertex_count g class }
    ensures size { length edges.new ≡ length edges.old }
    ensures kept { KeepsEntries edges.old edges.new }
    ensures put { HasPair g shape.now edges.new class pair }
    ensures reads { (prevs : Bool) → HasReads g shape.now.places prevs class edges.old
        → HasReads g shape.now.places prevs class edges.new }
{
    for child in 0..shape.kids_of(class).len() {
        add_edge(shape, class, child as u32, pair, edges);
    }
}

/// Adds the edge of a pair in this child, where it is of the pair's interface.
fn add_edge(shape: &Shape, class: u32, child: u32, pair: Pair, edges: &mut BitMatrix)
    ghost g: { AttributeGrammar }
    requires shape { IsShapeOf g shape.now }
    requires class { class < g.class_count }
    requires child { child < g.child_count class }
    requires pair { IsPair g pair }
    requires size { length edges.old ≡ vertex_count g class }
    ensures size { length edges.new ≡ length edges.old }
    ensures kept { KeepsEntries edges.old edges.new }
    ensures put { g.child_interface class child ≡ pair.interface
        → entry edges.new (number shape.now.places (of_child child pair.from))
        (number shape.now.places (of_child child pair.to)) ≡ true }
    ensures reads { (prevs : Bool) → HasReads g shape.now.places prevs class edges.old
        → HasReads g shape.now.places prevs class edges.new }
{
    if shape.kids_of(class)[child as usize].interface != pair.interface {
        return;
    }
    let from = shape.child_vertex(child, pair.from);
    let to = shape.child_vertex(child, pair.to);
    edges.put(from, to);
}
