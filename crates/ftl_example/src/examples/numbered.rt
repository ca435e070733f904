//! Two instances of a tree that show a pair, and an order that goes wrong, by number.
ghost use Rattle.std.specs.Prelude.{IfOk};
ghost use Rattle.ftl_deps.specs.reads.Meant.{meant};
ghost use Rattle.ftl_example.specs.examples.ShownOrders.{IsNumberedOrder};
ghost use Rattle.ftl_example.specs.pairs.PairMeant.{pair_meant};
ghost use Rattle.ftl_example.specs.shows.Shows.{Shows};
ghost use Rattle.ftl_example.specs.sizes.PlaceTable.{IsKnownPair};
ghost use Rattle.ftl_step_value.specs.limits.reads.ReadTables.{IsSound};
ghost use Rattle.ftl_model.specs.layout.Solves.{Instance};
ghost use Rattle.ftl_order.specs.orders.Ordered.{IsOrderedPair};
ghost use Rattle.ftl_order.specs.orders.Pairs.{IsPair};
ghost use Rattle.ftl_order.specs.orders.Schedule.{EachStandsOnce, placing_of};
ghost use Rattle.ftl_schedule.specs.stages.Stages.{stages_of};

use crate::examples::plain_steps::plain_steps;
use crate::examples::shown_order::{numbers_of, shown_order};
use crate::examples::shown_steps::shown_steps;
use crate::orders::plain_orders;
use crate::pairs::RefusedPair;
use crate::shows::examples;
use ftl_schedule::places::Placed;
use ftl_step_value::target_cell;
use ftl_tree::{InstanceList, Tree};
use std::alloc::{AllocError, Global};

/// Two instances and an order of all that are computed.
#[derive(Drop)]
pub struct NumberedOrder {
    pub reader: u32,
    pub writer: u32,
    pub order: InstanceList,
}

/// Two instances of the tree that show the pair, and an order in which the reader doesn't stand
/// after the writer.
pub(crate) fn numbered_order(
    alloc: Global,
    tree: &Tree<'_>,
    placed: &Placed,
    pair: RefusedPair,
) -> Result<NumberedOrder, AllocError>
    requires sound { IsSound (meant tree.now.checked) }
    requires once { EachStandsOnce (meant tree.now.checked) (stages_of placed.now) }
    requires known { IsKnownPair (meant tree.now.checked) pair }
    requires pair { IsPair (meant tree.now.checked) (pair_meant pair) }
    requires unordered { IsOrderedPair (meant tree.now.checked)
        (placing_of (stages_of placed.now)) (pair_meant pair) → ⊥ }
    requires shows { (r w : Instance)
        × Shows (meant tree.now.checked) tree.now.tree (pair_meant pair) r w }
    ensures numbered { IfOk result (λ n. IsNumberedOrder (meant tree.now.checked)
        (stages_of placed.now) (pair_meant pair) tree.now.tree n.reader n.writer n.order) }
{
    plain_orders();
    examples();
    let _nodes = tree.node_count();
    let steps = plain_steps(alloc, tree, placed.schedule())?;
    let shown = shown_steps(tree, pair, steps.as_slice()).unwrap();
    let reader = target_cell(tree, steps.as_slice()[shown.reader]);
    let writer = target_cell(tree, steps.as_slice()[shown.writer]);
    let order = shown_order(alloc, tree, placed, steps, shown)?;
    let order = numbers_of(alloc, tree, order.as_slice())?;
    Ok(NumberedOrder {
        reader,
        writer,
        order,
    })
}
