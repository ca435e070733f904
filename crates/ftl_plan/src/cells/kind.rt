//! The kinds of cells in a stage.
ghost use Rattle.std.specs.Prelude.{◌≡◌, ◌<◌, slice_index_or};
ghost use Rattle.ftl_deps.specs.reads.Meant.{meant};
ghost use Rattle.ftl_model.specs.layout.Table.{instance_count, instances};
ghost use Rattle.ftl_step_value.specs.limits.reads.ReadTables.{AreTables, IsSound};
ghost use Rattle.ftl_items.specs.stage_items.StageWork.{kind_by_stage, kind_of, no_instance};
ghost use Rattle.ftl_nests.specs.Nests.{outer_schedule};
ghost use Rattle.ftl_nest_check.specs.stages.Nested.{nests_of};

use crate::cells::node::attr_of_cell;
use ftl_cells::CellKind;
use ftl_nest_check::AcceptedNests;
use ftl_schedule::is_input;
use ftl_step_value::limits::ReadTables;
use ftl_tree::Tree;

/// The kind of a cell in an outer stage: an input is given, and what is computed is given after its
/// stage.
pub fn cell_kind(
    accepted: &AcceptedNests<'_>,
    tables: &ReadTables,
    tree: &Tree<'_>,
    stage: u32,
    cell: u32,
) -> CellKind
    requires sound { IsSound (meant tree.now.checked) }
    requires tables { AreTables (meant tree.now.checked) tables.now }
    requires cell { cell < instance_count (meant tree.now.checked) tree.now.tree }
    ensures kind { result ≡ kind_of (meant tree.now.checked)
        (outer_schedule (nests_of accepted.now.schedule)) stage
        (slice_index_or (instances (meant tree.now.checked) tree.now.tree) cell no_instance) }
{
    let attr = attr_of_cell(tables, tree, cell);
    if is_input(tree.checked(), attr) {
        return CellKind::Given;
    }
    kind_by_stage(accepted.placed().outer(attr).stage, stage as usize)
}

/// The kind by the stage that computes the cell's attribute.
fn kind_by_stage(its: usize, stage: usize) -> CellKind
    ensures kind { result ≡ kind_by_stage its stage }
{
    if its < stage {
        CellKind::Given
    } else if its == stage {
        CellKind::Target
    } else {
        CellKind::Later
    }
}
