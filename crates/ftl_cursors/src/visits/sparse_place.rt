//! Where a cursor stands that goes by blocks.
ghost use Rattle.std.specs.Prelude.{◌≡◌, ◌<◌, true, false, [], ◌∷◌, MatchOption};
ghost use Rattle.ftl_cursors.specs.visits.NodeParts.{IsInBlock};
ghost use Rattle.ftl_cursors.specs.visits.SparsePlaces.{AreSparseTables, AreWithin, range_steps};
ghost use Rattle.ftl_cursors.specs.visits.SparsePlaces.{sparse_left};

use crate::visits::cursor::VisitCursor;
use crate::visits::nodes::NodeRange;
use crate::visits::parts::take_part;
use crate::visits::place::Tables;
use ftl_order::Step;

/// What a cursor goes by: what one over all nodes does, the classes of each block of nodes, and those
/// that have operations.
#[derive(Clone, Copy)]
pub(crate) struct SparseTables<'a> {
    pub all: Tables<'a>,
    pub blocks: &'a [u128],
    pub visited: u128,
}

/// The next step; none at the end.
pub(crate) fn next_step<'a>(
    tables: SparseTables<'a>,
    nodes: &mut NodeRange,
    steps: &mut VisitCursor<'a>,
) -> Option<Step>
    requires tables { AreSparseTables tables }
    requires nodes { AreWithin tables nodes.old }
    ensures nodes { AreWithin tables.entry nodes.new }
    ensures step { MatchOption result
        ((sparse_left tables.entry nodes.old steps.old ≡ [])
        × (sparse_left tables.entry nodes.new steps.new ≡ []))
        (λ step. sparse_left tables.entry nodes.old steps.old
        ≡ step ∷ sparse_left tables.entry nodes.new steps.new) }
{
    'search: loop {
        if let Some(step) = steps.next() {
            return Some(step);
        }
        if !go_on(tables, nodes, steps) {
            return None;
        }
    }
}

/// Begins the next block, or passes over it where it has no class with operations; false at the end.
fn go_on<'a>(tables: SparseTables<'a>, nodes: &mut NodeRange, steps: &mut VisitCursor<'a>) -> bool
    requires tables { AreSparseTables tables }
    requires nodes { AreWithin tables nodes.old }
    requires done { steps.old ≡ [] }
    ensures nodes { AreWithin tables.entry nodes.new }
    ensures left { sparse_left tables.entry nodes.new steps.new
        ≡ sparse_left tables.entry nodes.old steps.old }
    ensures end { result ≡ false → sparse_left tables.entry nodes.old steps.old ≡ [] }
    ensures last { result ≡ false → steps.new ≡ [] }
    ensures less { result ≡ true → nodes.new.count < nodes.old.count }
{
    let _nodes = tables.all.tree.node_count();
    if nodes.count == 0 {
        return false;
    }
    let part = take_part(nodes, tables.all.order);
    if is_visited(tables, part) {
        *steps = part_steps(tables, part);
    }
    true
}

/// Whether the block of these nodes has a class with operations.
fn is_visited(tables: SparseTables<'_>, part: NodeRange) -> bool
    requires tables { AreSparseTables tables }
    requires nodes { AreWithin tables part }
    requires some { 0 < part.count }
    requires block { IsInBlock part }
    ensures none { result ≡ false → range_steps tables.entry part ≡ [] }
{
    tables.blocks[(part.first / 64) as usize] & tables.visited != 0
}

/// The steps of the visits of these nodes.
fn part_steps<'a>(tables: SparseTables<'a>, part: NodeRange) -> VisitCursor<'a>
    requires tables { AreSparseTables tables }
    requires nodes { AreWithin tables part }
    ensures steps { result ≡ range_steps tables.entry part }
{
    let all = tables.all;
    VisitCursor::new(
        all.tree,
        all.visits,
        all.targets,
        all.order,
        part.first,
        part.count,
    )
}
