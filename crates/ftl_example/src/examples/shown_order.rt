//! The steps of a tree in an order that goes wrong.
ghost use Rattle.std.specs.Prelude.{◌≡◌, ◌<◌, length, map, IfOk};
ghost use Rattle.ftl_cursors.specs.item_cursor.ItemSteps.{AreStepsOf};
ghost use Rattle.ftl_deps.specs.reads.Meant.{meant};
ghost use Rattle.ftl_example.specs.examples.ShownOrders.{ComputeWrongly};
ghost use Rattle.ftl_example.specs.examples.ShownSteps.{AreOfTree, step_in};
ghost use Rattle.ftl_example.specs.orders.PlainOrder.{plain_order};
ghost use Rattle.ftl_step_value.specs.limits.reads.ReadTables.{IsSound};
ghost use Rattle.ftl_order.specs.orders.LegalOrder.{MustPrecede};
ghost use Rattle.ftl_order.specs.orders.Schedule.{EachStandsOnce};
ghost use Rattle.ftl_order.specs.steps.Steps.{target_of};
ghost use Rattle.ftl_schedule.specs.stages.Stages.{stages_of};
ghost use Rattle.ftl_step_value.specs.cells.ReadCells.{filled_cell};

use crate::examples::early_steps::early_steps;
use crate::examples::shown_steps::ShownPlaces;
use crate::orders::plain_orders;
use ftl_order::Step;
use ftl_schedule::places::Placed;
use ftl_step_value::target_cell;
use ftl_tree::{InstanceList, Tree};
use std::alloc::{AllocError, Global};

/// The steps in an order in which the reader doesn't stand after the writer: in plain order if
/// that is one, and else with those first that are early for the reader.
pub(crate) fn shown_order(
    alloc: Global,
    tree: &Tree<'_>,
    placed: &Placed,
    steps: Vec<Step>,
    shown: ShownPlaces,
) -> Result<Vec<Step>, AllocError>
    requires sound { IsSound (meant tree.now.checked) }
    requires once { EachStandsOnce (meant tree.now.checked) (stages_of placed.now) }
    requires plain { AreStepsOf (meant tree.now.checked) tree.now.tree
        (plain_order (meant tree.now.checked) (stages_of placed.now) tree.now.tree) steps.items }
    requires reader { shown.reader < length steps.items }
    requires writer { shown.writer < length steps.items }
    requires free { MustPrecede (meant tree.now.checked) tree.now.tree (stages_of placed.now)
        (target_of (meant tree.now.checked) tree.now.tree (step_in steps.items shown.writer))
        (target_of (meant tree.now.checked) tree.now.tree (step_in steps.items shown.reader)) → ⊥ }
    ensures order { IfOk result (λ v. ComputeWrongly (meant tree.now.checked)
        (stages_of placed.now) tree.now.tree
        (target_of (meant tree.now.checked) tree.now.tree (step_in steps.items shown.reader))
        (target_of (meant tree.now.checked) tree.now.tree (step_in steps.items shown.writer))
        v.items) }
{
    plain_orders();
    let _nodes = tree.node_count();
    if shown.reader <= shown.writer {
        return Ok(steps);
    }
    let reader = steps.as_slice()[shown.reader];
    early_steps(alloc, tree, placed, reader, steps.as_slice())
}

/// The numbers of the instances that some steps compute.
pub fn numbers_of(
    alloc: Global,
    tree: &Tree<'_>,
    steps: &[Step],
) -> Result<InstanceList, AllocError>
    requires sound { IsSound (meant tree.now.checked) }
    requires steps { AreOfTree (meant tree.now.checked) tree.now.tree steps.now }
    ensures numbers { IfOk result
        (λ l. l ≡ map (filled_cell (meant tree.now.checked) tree.now.tree) steps.now) }
{
    let mut numbers = InstanceList::new(alloc);
    for place in 0..steps.len() {
        numbers.push(target_cell(tree, steps[place]))?;
    }
    Ok(numbers)
}
