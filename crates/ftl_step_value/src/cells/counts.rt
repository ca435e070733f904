//! How many cells a step reads, and each by its place.
ghost use Rattle.std.specs.Prelude.{◌≡◌, ◌<◌, length, slice_index};
ghost use Rattle.ftl_deps.specs.reads.Meant.{meant};
ghost use Rattle.ftl_order.specs.orders.Reads.{reads_of};
ghost use Rattle.ftl_step_value.specs.limits.reads.ReadTables.{AreTables, IsSound};
ghost use Rattle.ftl_order.specs.steps.Steps.{IsStepOf, target_of};
ghost use Rattle.ftl_step_value.specs.cells.ReadCells.{read_cells};

use crate::cells::cursor::StepReads;
use crate::cells::parts::step_parts;
use crate::limits::ReadTables;
use ftl_order::Step;
use ftl_tree::Tree;
use ftl_visit::read_count as count_by_parts;

/// How many cells a step reads, each counted as often as it is read.
pub fn read_count(tables: &ReadTables, tree: &Tree<'_>, step: Step) -> u32
    requires sound { IsSound (meant tree.now.checked) }
    requires tables { AreTables (meant tree.now.checked) tables.now }
    requires step { IsStepOf (meant tree.now.checked) tree.now.tree step }
    ensures count { result ≡ length (reads_of (meant tree.now.checked) tree.now.tree
        (target_of (meant tree.now.checked) tree.now.tree step)) }
{
    let _nodes = tree.node_count();
    let parts = step_parts(tables, tree, step);
    count_by_parts(tree, step.node, parts, step.kid) as u32
}

/// The cell that a step reads at this place; goes through those before it.
pub fn read_at<'a>(tables: &'a ReadTables, tree: &'a Tree<'a>, step: Step, place: u32) -> u32
    requires sound { IsSound (meant tree.now.checked) }
    requires tables { AreTables (meant tree.now.checked) tables.now }
    requires step { IsStepOf (meant tree.now.checked) tree.now.tree step }
    requires place { place < length (read_cells (meant tree.now.checked) tree.now.tree step) }
    ensures cell { result
        ≡ slice_index (read_cells (meant tree.now.checked) tree.now.tree step) place }
{
    let mut reads = StepReads::new(tables, tree, step);
    for before in 0..place {
        reads.next();
    }
    reads.next().unwrap()
}
