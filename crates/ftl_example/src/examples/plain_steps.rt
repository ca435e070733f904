//! The steps of a tree in plain order.
ghost use Rattle.std.specs.Prelude.{◌≡◌, ◌++◌, IfOk, OnOk, map};
ghost use Rattle.ftl_cursors.specs.inorder.InorderSteps.{inorder_steps};
ghost use Rattle.ftl_cursors.specs.item_cursor.ItemSteps.{AreStepsOf};
ghost use Rattle.ftl_cursors.specs.visits.NodeRanges.{nodes_in};
ghost use Rattle.ftl_cursors.specs.sequence.BlockPlaces.{places_of};
ghost use Rattle.ftl_cursors.specs.visits.VisitSteps.{AreVisits, steps_of_nodes};
ghost use Rattle.ftl_deps.specs.reads.Meant.{meant};
ghost use Rattle.ftl_example.specs.examples.PlainSteps.{steps_of_pass, steps_of_passes};
ghost use Rattle.ftl_example.specs.orders.PlainOrder.{plain_order};
ghost use Rattle.ftl_step_value.specs.limits.reads.ReadTables.{IsSound};
ghost use Rattle.ftl_model.specs.layout.Path.{top};
ghost use Rattle.ftl_model.specs.layout.Tree.{size};
ghost use Rattle.ftl_order.specs.orders.Schedule.{EachStandsOnce};
ghost use Rattle.ftl_schedule.specs.declared.syntax.kind.PassKind.TheVariants.{InOrder};
ghost use Rattle.ftl_schedule.specs.stages.Stages.{stages_of};
ghost use Rattle.ftl_visit.specs.passes.VisitRows.{target_of, visits_of};

use ftl_cursors::inorder::inorder_steps_make_sequences;
use ftl_cursors::sequence::{SequenceCursor, SequencePlaces};
use ftl_cursors::visits::{NodeOrder, VisitCursor, visits_make_steps};
use ftl_order::Step;
use ftl_schedule::{Pass, PassKind, Schedule};
use ftl_tree::Tree;
use ftl_visit::{PassVisits, RuleIndex, RuleTarget, rule_targets};
use std::alloc::{AllocError, Global};

/// The steps that compute a tree, in plain order.
pub fn plain_steps(
    alloc: Global,
    tree: &Tree<'_>,
    schedule: &Schedule,
) -> Result<Vec<Step>, AllocError>
    requires sound { IsSound (meant tree.now.checked) }
    requires once { EachStandsOnce (meant tree.now.checked) (stages_of schedule.now) }
    ensures steps { IfOk result (λ v. AreStepsOf (meant tree.now.checked) tree.now.tree
        (plain_order (meant tree.now.checked) (stages_of schedule.now) tree.now.tree) v.items) }
{
    visits_make_steps();
    inorder_steps_make_sequences();
    let _nodes = tree.node_count();
    let index = RuleIndex::new(alloc, tree.checked())?;
    let targets = rule_targets(alloc, tree.checked())?;
    let mut steps = Vec::new(alloc);
    let stages = schedule.stages.as_slice();
    for stage in 0..stages.len() {
        let passes = stages[stage].passes.as_slice();
        add_stage(alloc, &mut steps, tree, &index, &targets, passes)?;
    }
    Ok(steps)
}

// Adds the steps of the passes of a stage.
fn add_stage(
    alloc: Global,
    steps: &mut Vec<Step>,
    tree: &Tree<'_>,
    index: &RuleIndex<'_>,
    targets: &[RuleTarget],
    passes: &[Pass],
) -> Result<(), AllocError>
    requires sound { IsSound (meant tree.now.checked) }
    requires index { index.now ≡ tree.now.checked }
    requires targets { targets.now ≡ map target_of (meant tree.now.checked).rules }
    ensures added { OnOk result (steps.new.items ≡ steps.old.items
        ++ steps_of_passes (meant tree.now.checked) tree.now.tree passes.now) }
{
    for pass in 0..passes.len() {
        add_pass(alloc, steps, tree, index, targets, &passes[pass])?;
    }
    Ok(())
}

// Adds those of a pass.
fn add_pass(
    alloc: Global,
    steps: &mut Vec<Step>,
    tree: &Tree<'_>,
    index: &RuleIndex<'_>,
    targets: &[RuleTarget],
    pass: &Pass,
) -> Result<(), AllocError>
    requires sound { IsSound (meant tree.now.checked) }
    requires index { index.now ≡ tree.now.checked }
    requires targets { targets.now ≡ map target_of (meant tree.now.checked).rules }
    ensures added { OnOk result (steps.new.items ≡ steps.old.items
        ++ steps_of_pass (meant tree.now.checked) tree.now.tree pass.now) }
{
    visits_make_steps();
    let visits = PassVisits::new(alloc, index, pass.kind, pass.attrs.as_slice())?;
    match pass.kind {
        PassKind::TopDown => add_visits(steps, tree, &visits, targets, NodeOrder::Preorder),
        PassKind::BottomUp => add_visits(steps, tree, &visits, targets, NodeOrder::Reverse),
        PassKind::InOrder => {
            let places = SequencePlaces::new(alloc, &visits, index.checked())?;
            add_sequence(steps, tree, &visits, &places, pass.attrs.as_slice())
        }
    }
}

// Adds those of the visits of all nodes.
fn add_visits(
    steps: &mut Vec<Step>,
    tree: &Tree<'_>,
    visits: &PassVisits,
    targets: &[RuleTarget],
    order: NodeOrder,
) -> Result<(), AllocError>
    requires visits { AreVisits (meant tree.now.checked) visits.now }
    requires targets { targets.now ≡ map target_of (meant tree.now.checked).rules }
    ensures added { OnOk result (steps.new.items ≡ steps.old.items
        ++ steps_of_nodes (meant tree.now.checked) tree.now.tree visits.now
        (nodes_in order 0 (size tree.now.tree))) }
{
    let count = tree.node_count();
    let mut left = VisitCursor::new(tree, visits, targets, order, 0, count);
    while let Some(step) = left.next() {
        steps.push(step)?;
    }
    Ok(())
}

// Adds those of an inorder pass.
fn add_sequence(
    steps: &mut Vec<Step>,
    tree: &Tree<'_>,
    visits: &PassVisits,
    places: &SequencePlaces,
    attrs: &[u32],
) -> Result<(), AllocError>
    requires visits { visits.now ≡ visits_of (meant tree.now.checked) InOrder attrs.now }
    requires places { places.now ≡ places_of visits.now }
    ensures added { OnOk result (steps.new.items ≡ steps.old.items
        ++ inorder_steps (meant tree.now.checked) tree.now.tree attrs.now top) }
{
    let _nodes = tree.node_count();
    let mut left = SequenceCursor::new(tree, visits, places, attrs, 0);
    while let Some(step) = left.next() {
        steps.push(step)?;
    }
    Ok(())
}
