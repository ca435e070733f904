//! The steps of a tree with the early ones first.
ghost use Rattle.std.specs.Prelude.{◌≡◌, ◌<◌, ◌++◌, filter, IfOk, OnOk};
ghost use Rattle.ftl_deps.specs.reads.Meant.{meant};
ghost use Rattle.ftl_example.specs.examples.EarlySteps.{early_steps, is_early_step, is_in_half};
ghost use Rattle.ftl_example.specs.examples.ShownSteps.{AreOfTree};
ghost use Rattle.ftl_example.specs.orders.EarlyVisits.{is_near, is_over};
ghost use Rattle.ftl_step_value.specs.limits.reads.ReadTables.{IsSound};
ghost use Rattle.ftl_model.specs.layout.Path.{node_at};
ghost use Rattle.ftl_model.specs.layout.Tree.{size};
ghost use Rattle.ftl_order.specs.orders.Schedule.{placing_of};
ghost use Rattle.ftl_order.specs.steps.Steps.{IsStepOf, target_of};
ghost use Rattle.ftl_schedule.specs.stages.Stages.{kind_of, stages_of};

use ftl_order::Step;
use ftl_schedule::PassKind;
use ftl_schedule::places::Placed;
use ftl_tree::Tree;
use std::alloc::{AllocError, Global};

/// The steps that are early for another, or those that aren't.
#[derive(Clone, Copy)]
pub enum Half {
    Early,
    Late,
}

/// The steps that are early for the reader, and then the others, each in their order.
pub(crate) fn early_steps(
    alloc: Global,
    tree: &Tree<'_>,
    placed: &Placed,
    reader: Step,
    steps: &[Step],
) -> Result<Vec<Step>, AllocError>
    requires sound { IsSound (meant tree.now.checked) }
    requires reader { IsStepOf (meant tree.now.checked) tree.now.tree reader }
    requires steps { AreOfTree (meant tree.now.checked) tree.now.tree steps.now }
    ensures steps { IfOk result (λ v. v.items ≡ early_steps (meant tree.now.checked)
        (placing_of (stages_of placed.now)) tree.now.tree reader steps.now) }
{
    let mut order = Vec::with_capacity(alloc, steps.len())?;
    add_half(&mut order, tree, placed, reader, Half::Early, steps)?;
    add_half(&mut order, tree, placed, reader, Half::Late, steps)?;
    Ok(order)
}

// Adds those of a half, in their order.
fn add_half(
    order: &mut Vec<Step>,
    tree: &Tree<'_>,
    placed: &Placed,
    reader: Step,
    half: Half,
    steps: &[Step],
) -> Result<(), AllocError>
    requires sound { IsSound (meant tree.now.checked) }
    requires reader { IsStepOf (meant tree.now.checked) tree.now.tree reader }
    requires steps { AreOfTree (meant tree.now.checked) tree.now.tree steps.now }
    ensures added { OnOk result (order.new.items ≡ order.old.items
        ++ filter (is_in_half (meant tree.now.checked) (placing_of (stages_of placed.now))
        tree.now.tree reader half) steps.now) }
{
    for place in 0..steps.len() {
        let step = steps[place];
        if is_in_half(tree, placed, reader, half, step) {
            order.push(step)?;
        }
    }
    Ok(())
}

// Whether a step is in a half.
fn is_in_half(tree: &Tree<'_>, placed: &Placed, reader: Step, half: Half, step: Step) -> bool
    requires sound { IsSound (meant tree.now.checked) }
    requires reader { IsStepOf (meant tree.now.checked) tree.now.tree reader }
    requires step { IsStepOf (meant tree.now.checked) tree.now.tree step }
    ensures half { result ≡ is_in_half (meant tree.now.checked)
        (placing_of (stages_of placed.now)) tree.now.tree reader half step }
{
    let early = is_early(tree, placed, reader, step);
    match half {
        Half::Early => early,
        Half::Late => !early,
    }
}

// Whether a step is early for the reader: in an earlier stage, or near before it in its pass.
fn is_early(tree: &Tree<'_>, placed: &Placed, reader: Step, step: Step) -> bool
    requires sound { IsSound (meant tree.now.checked) }
    requires reader { IsStepOf (meant tree.now.checked) tree.now.tree reader }
    requires step { IsStepOf (meant tree.now.checked) tree.now.tree step }
    ensures early { result ≡ is_early_step (meant tree.now.checked)
        (placing_of (stages_of placed.now)) tree.now.tree reader step }
{
    let _nodes = tree.node_count();
    let place = placed.schedule_place(attr_of(tree, step));
    let late = placed.schedule_place(attr_of(tree, reader));
    place.stage < late.stage
        || (place.stage == late.stage
            && place.pass == late.pass
            && is_near(tree, late.kind, step.node, reader.node))
}

/// The attribute that a step computes.
pub fn attr_of(tree: &Tree<'_>, step: Step) -> u32
    requires step { IsStepOf (meant tree.now.checked) tree.now.tree step }
    ensures attr { result
        ≡ (target_of (meant tree.now.checked) tree.now.tree step).attribute }
{
    let checked = tree.checked();
    let _ = checked.grammar();
    checked.rule(step.rule).attr
}

/// Whether the visit of the first node comes before that of the second in a pass, or is it.
pub fn is_near(tree: &Tree<'_>, kind: PassKind, node: u32, reader: u32) -> bool
    requires node { node < size tree.now.tree }
    requires reader { reader < size tree.now.tree }
    ensures near { result ≡ is_near (kind_of kind) tree.now.tree (node_at tree.now.tree node)
        (node_at tree.now.tree reader) }
{
    match kind {
        PassKind::TopDown => is_over(tree, node, reader),
        PassKind::BottomUp => is_over(tree, reader, node),
        PassKind::InOrder => true,
    }
}

/// Whether a node is another, or above it.
pub fn is_over(tree: &Tree<'_>, above: u32, node: u32) -> bool
    requires above { above < size tree.now.tree }
    requires node { node < size tree.now.tree }
    ensures over { result ≡ is_over tree.now.tree (node_at tree.now.tree above)
        (node_at tree.now.tree node) }
{
    let _nodes = tree.node_count();
    above <= node && node - above < tree.subtree_size(above)
}
