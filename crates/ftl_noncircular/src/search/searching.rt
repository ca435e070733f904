//! The search for circular vertices.

ghost use Rattle.std.specs.Prelude.{◌≡◌, ◌<◌, IfNone, IfOk, IfSome, MatchOption};
ghost use Rattle.ftl_deps.specs.reads.DepRows.{dep_rows};
ghost use Rattle.ftl_deps.specs.reads.Meant.{meant};
ghost use Rattle.ftl_model.specs.layout.AttributeGrammar.{AttributeGrammar};
ghost use Rattle.lane_rows.specs.Matrix.{entry};
ghost use Rattle.ftl_noncircular.specs.grammars.FirstCircular.{IsFirstCircular};
ghost use Rattle.ftl_noncircular.specs.grammars.Noncircular.{IsClosed, IsNoncircular, family_of};
ghost use Rattle.ftl_noncircular.specs.search.Circles.{TellsCircles, vertex_at};
ghost use Rattle.ftl_noncircular.specs.search.Closing.{HasNone, IsFirstIn};
ghost use Rattle.ftl_noncircular.specs.search.Pairs.{IsPairListOf};
ghost use Rattle.ftl_noncircular.specs.search.Shapes.{IsShapeOf};

use crate::search::circles::class_circle;
use crate::search::class_walks::class_walks;
use crate::search::fault::CircularFault;
use crate::search::found::Noncircular;
use crate::search::pair_list::PairList;
use crate::search::pairs::find_pairs;
use crate::search::read_edges::read_edges;
use crate::search::shape::{Shape, Vertex};
use ftl_checked::Checked;
use ftl_deps::DepTable;
use std::alloc::{AllocError, Global};

/// The grammar as one that is noncircular, or its first circular vertex.
pub fn noncircular<'a>(
    alloc: Global,
    checked: &'a Checked,
    deps: &DepTable,
) -> Result<Noncircular<'a>, CircularFault>
    requires table { deps.now ≡ dep_rows (meant checked.now) }
    ensures answer { TellsCircles checked.now result }
{
    let shape = Shape::new(alloc, checked)?;
    match first_circular(alloc, checked, deps, &shape)? {
        Some(circle) => Err(CircularFault::Circular {
            class: circle.class,
            child: circle.vertex.child,
            attr: circle.vertex.attr,
        }),
        None => Ok(Noncircular::new(checked)),
    }
}

/// A circular vertex of a class.
#[derive(Clone, Copy, Debug, PartialEq, Eq)]
pub struct Circle {
    pub class: u32,
    pub vertex: Vertex,
}

/// The first circular vertex of the grammar.
fn first_circular(
    alloc: Global,
    checked: &Checked,
    deps: &DepTable,
    shape: &Shape,
) -> Result<Option<Circle>, AllocError>
    ghost g: { AttributeGrammar }
    requires meant { g ≡ meant checked.now }
    requires table { deps.now ≡ dep_rows g }
    requires shape { IsShapeOf g shape.now }
    ensures circle { IfOk result (λ found. MatchOption found (IsNoncircular g)
        (λ x. IsFirstCircular g x.class (vertex_at x.vertex.child x.vertex.attr))) }
{
    let walks = class_walks(alloc, checked, deps, shape)?;
    let list = find_pairs(alloc, shape, walks)?;
    for class in 0..shape.kids.len() {
        let class = class as u32;
        if let Some(vertex) = circle_in(alloc, checked, deps, shape, &list, class)? {
            return Ok(Some(Circle { class, vertex }));
        }
    }
    Ok(None)
}

/// The first circular vertex of a class.
fn circle_in(
    alloc: Global,
    checked: &Checked,
    deps: &DepTable,
    shape: &Shape,
    list: &PairList,
    class: u32,
) -> Result<Option<Vertex>, AllocError>
    ghost g: { AttributeGrammar }
    requires meant { g ≡ meant checked.now }
    requires table { deps.now ≡ dep_rows g }
    requires shape { IsShapeOf g shape.now }
    requires list { IsPairListOf g list.now }
    requires closed { IsClosed g (family_of (entry list.now.has)) }
    requires class { class < g.class_count }
    ensures some { IfOk result (λ found. IfSome found
        (λ v. IsFirstIn g class (vertex_at v.child v.attr))) }
    ensures none { IfOk result (λ found. IfNone found (HasNone g class)) }
{
    let all = read_edges(alloc, checked, deps, shape, class, true)?;
    let without = read_edges(alloc, checked, deps, shape, class, false)?;
    Ok(class_circle(shape, class, list, all, without))
}
