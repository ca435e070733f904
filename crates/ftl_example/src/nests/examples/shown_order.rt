//! The steps of a tree in an order that goes wrong.
ghost use Rattle.std.specs.Prelude.{◌≡◌, ◌<◌, length, IfOk};
ghost use Rattle.ftl_cursors.specs.item_cursor.ItemSteps.{AreStepsOf};
ghost use Rattle.ftl_deps.specs.reads.Meant.{meant};
ghost use Rattle.ftl_example.specs.examples.ShownSteps.{step_in};
ghost use Rattle.ftl_step_value.specs.limits.reads.ReadTables.{IsSound};
ghost use Rattle.ftl_nest_check.specs.stages.Nested.{nests_of};
ghost use Rattle.ftl_example.specs.nests.examples.ShownOrders.{ComputeWrongly};
ghost use Rattle.ftl_example.specs.nests.orders.NestOrders.{plain_order_with_nests};
ghost use Rattle.ftl_nests.specs.Hosted.{MustPrecedeWithNests};
ghost use Rattle.ftl_nests.specs.Nests.{AreSidesKept, nest_placing_of, outer_schedule};
ghost use Rattle.ftl_order.specs.orders.Schedule.{EachStandsOnce};
ghost use Rattle.ftl_order.specs.steps.Steps.{target_of};

use crate::examples::ShownPlaces;
use crate::nests::examples::early_steps::early_steps;
use crate::nests::examples::host::hosted_step;
use crate::nests::orders::plain_orders_with_nests;
use ftl_nest_check::places::PlacedNests;
use ftl_order::Step;
use ftl_tree::Tree;
use std::alloc::{AllocError, Global};

/// The steps in an order in which the reader doesn't stand after the writer: in plain order if
/// that is one, and else with those first that are early for the reader.
pub(crate) fn shown_order(
    alloc: Global,
    tree: &Tree<'_>,
    placed: &PlacedNests,
    steps: Vec<Step>,
    shown: ShownPlaces,
) -> Result<Vec<Step>, AllocError>
    requires sound { IsSound (meant tree.now.checked) }
    requires once { EachStandsOnce (meant tree.now.checked)
        (outer_schedule (nests_of placed.now)) }
    requires sides { AreSidesKept (meant tree.now.checked) (nests_of placed.now) }
    requires plain { AreStepsOf (meant tree.now.checked) tree.now.tree
        (plain_order_with_nests (meant tree.now.checked) (nests_of placed.now) tree.now.tree)
        steps.items }
    requires reader { shown.reader < length steps.items }
    requires writer { shown.writer < length steps.items }
    requires free { MustPrecedeWithNests (meant tree.now.checked) tree.now.tree
        (nest_placing_of (nests_of placed.now))
        (target_of (meant tree.now.checked) tree.now.tree (step_in steps.items shown.writer))
        (target_of (meant tree.now.checked) tree.now.tree (step_in steps.items shown.reader)) → ⊥ }
    ensures order { IfOk result (λ v. ComputeWrongly (meant tree.now.checked)
        (nests_of placed.now) tree.now.tree
        (target_of (meant tree.now.checked) tree.now.tree (step_in steps.items shown.reader))
        (target_of (meant tree.now.checked) tree.now.tree (step_in steps.items shown.writer))
        v.items) }
{
    plain_orders_with_nests();
    let _nodes = tree.node_count();
    if shown.reader <= shown.writer {
        return Ok(steps);
    }
    let reader = hosted_step(tree, placed, steps.as_slice()[shown.reader]);
    early_steps(alloc, tree, placed, reader, steps.as_slice())
}
