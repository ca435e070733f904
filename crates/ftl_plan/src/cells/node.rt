//! The instance of a cell.
ghost use Rattle.std.specs.Prelude.{◌≡◌, ◌<◌, slice_index_or};
ghost use Rattle.ftl_deps.specs.reads.Meant.{meant};
ghost use Rattle.ftl_model.specs.layout.Table.{instance_count, instances};
ghost use Rattle.ftl_step_value.specs.limits.reads.ReadTables.{AreTables, IsSound};
ghost use Rattle.ftl_items.specs.stage_items.StageWork.{no_instance};
ghost use Rattle.ftl_plan.specs.cells.NodeCells.{IsCellOf};

use ftl_step_value::limits::ReadTables;
use ftl_tree::Tree;

/// The node that has a cell, by halving over where the cells of the nodes begin.
fn node_of_cell(tree: &Tree<'_>, cell: u32) -> u32
    requires cell { cell < instance_count (meant tree.now.checked) tree.now.tree }
    ensures node { IsCellOf (meant tree.now.checked) tree.now.tree result cell }
{
    let mut low = 0;
    let mut high = tree.node_count();
    while high - low > 1 {
        let middle = low + (high - low) / 2;
        if tree.first_instance(middle) <= cell {
            low = middle;
        } else {
            high = middle;
        }
    }
    low
}

/// The attribute of the instance of a cell.
pub(crate) fn attr_of_cell(tables: &ReadTables, tree: &Tree<'_>, cell: u32) -> u32
    requires sound { IsSound (meant tree.now.checked) }
    requires tables { AreTables (meant tree.now.checked) tables.now }
    requires cell { cell < instance_count (meant tree.now.checked) tree.now.tree }
    ensures attr { result ≡ (slice_index_or (instances (meant tree.now.checked) tree.now.tree)
        cell no_instance).attribute }
{
    let _nodes = tree.node_count();
    let node = node_of_cell(tree, cell);
    let rows = tables.attributes.as_slice();
    let attrs = rows[tree.class(node) as usize].as_slice();
    attrs[(cell - tree.first_instance(node)) as usize]
}
