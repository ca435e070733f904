//! The steps of a tree with the early ones first.
ghost use Rattle.std.specs.Prelude.{◌≡◌, ◌≢◌, ◌++◌, filter, None, IfOk, OnOk};
ghost use Rattle.ftl_deps.specs.reads.Meant.{meant};
ghost use Rattle.ftl_example.specs.examples.EarlySteps as flat;
ghost use Rattle.ftl_example.specs.examples.ShownSteps.{AreOfTree};
ghost use Rattle.ftl_step_value.specs.limits.reads.ReadTables.{IsSound};
ghost use Rattle.ftl_nest_check.specs.stages.Nested.{nests_of};
ghost use Rattle.ftl_example.specs.nests.examples.EarlySteps.{IsHostedStep, early_steps};
ghost use Rattle.ftl_example.specs.nests.examples.EarlySteps.{is_early_step, is_in_half};
ghost use Rattle.ftl_example.specs.nests.orders.EarlyWithNests.{is_early_in};
ghost use Rattle.ftl_nests.specs.Nests.{nest_placing_of};
ghost use Rattle.ftl_order.specs.steps.Steps.{IsStepOf, target_of};
ghost use Rattle.ftl_regions.specs.pairs.NestReads as reads;
ghost use Rattle.ftl_schedule.specs.stages.Stages.{kind_of};

use crate::examples::{Half, attr_of, is_near, is_over};
use crate::nests::examples::host::HostedStep;
use ftl_nest_check::places::PlacedNests;
use ftl_order::Step;
use ftl_schedule::PassKind;
use ftl_tree::Tree;
use std::alloc::{AllocError, Global};

/// The steps that are early for the reader, and then the others, each in their order.
pub(crate) fn early_steps(
    alloc: Global,
    tree: &Tree<'_>,
    placed: &PlacedNests,
    reader: HostedStep,
    steps: &[Step],
) -> Result<Vec<Step>, AllocError>
    requires sound { IsSound (meant tree.now.checked) }
    requires reader { IsHostedStep (meant tree.now.checked)
        (nest_placing_of (nests_of placed.now)) tree.now.tree reader }
    requires steps { AreOfTree (meant tree.now.checked) tree.now.tree steps.now }
    ensures steps { IfOk result (λ v. v.items ≡ early_steps (meant tree.now.checked)
        (nest_placing_of (nests_of placed.now)) tree.now.tree reader.step steps.now) }
{
    let mut order = Vec::with_capacity(alloc, steps.len())?;
    add_half(&mut order, tree, placed, reader, Half::Early, steps)?;
    add_half(&mut order, tree, placed, reader, Half::Late, steps)?;
    Ok(order)
}

// Adds those of a half, in their order.
fn add_half(
    order: &mut Vec<Step>,
    tree: &Tree<'_>,
    placed: &PlacedNests,
    reader: HostedStep,
    half: Half,
    steps: &[Step],
) -> Result<(), AllocError>
    requires sound { IsSound (meant tree.now.checked) }
    requires reader { IsHostedStep (meant tree.now.checked)
        (nest_placing_of (nests_of placed.now)) tree.now.tree reader }
    requires steps { AreOfTree (meant tree.now.checked) tree.now.tree steps.now }
    ensures added { OnOk result (order.new.items ≡ order.old.items
        ++ filter (is_in_half (meant tree.now.checked) (nest_placing_of (nests_of placed.now))
        tree.now.tree reader.step half) steps.now) }
{
    for place in 0..steps.len() {
        let step = steps[place];
        if is_in_half(tree, placed, reader, half, step) {
            order.push(step)?;
        }
    }
    Ok(())
}

// Whether a step is in a half.
fn is_in_half(
    tree: &Tree<'_>,
    placed: &PlacedNests,
    reader: HostedStep,
    half: Half,
    step: Step,
) -> bool
    requires sound { IsSound (meant tree.now.checked) }
    requires reader { IsHostedStep (meant tree.now.checked)
        (nest_placing_of (nests_of placed.now)) tree.now.tree reader }
    requires step { IsStepOf (meant tree.now.checked) tree.now.tree step }
    ensures half { result ≡ is_in_half (meant tree.now.checked)
        (nest_placing_of (nests_of placed.now)) tree.now.tree reader.step half step }
{
    let early = is_early(tree, placed, reader, step);
    match half {
        Half::Early => early,
        Half::Late => !early,
    }
}

// Whether a step is early for the reader: in an earlier outer stage, or near before it in its outer
// pass.
fn is_early(tree: &Tree<'_>, placed: &PlacedNests, reader: HostedStep, step: Step) -> bool
    requires sound { IsSound (meant tree.now.checked) }
    requires reader { IsHostedStep (meant tree.now.checked)
        (nest_placing_of (nests_of placed.now)) tree.now.tree reader }
    requires step { IsStepOf (meant tree.now.checked) tree.now.tree step }
    ensures early { result ≡ is_early_step (meant tree.now.checked)
        (nest_placing_of (nests_of placed.now)) tree.now.tree reader.step step }
{
    let place = placed.outer(attr_of(tree, step));
    let late = placed.outer(attr_of(tree, reader.step));
    place.stage < late.stage
        || (place.stage == late.stage
            && place.pass == late.pass
            && is_early_in(tree, placed, late.kind, reader, step))
}

// Whether it is, in one outer pass of this kind.
fn is_early_in(
    tree: &Tree<'_>,
    placed: &PlacedNests,
    kind: PassKind,
    reader: HostedStep,
    step: Step,
) -> bool
    requires sound { IsSound (meant tree.now.checked) }
    requires reader { IsHostedStep (meant tree.now.checked)
        (nest_placing_of (nests_of placed.now)) tree.now.tree reader }
    requires step { IsStepOf (meant tree.now.checked) tree.now.tree step }
    ensures early { result ≡ is_early_in (meant tree.now.checked)
        (nest_placing_of (nests_of placed.now)) tree.now.tree (kind_of kind)
        ((nest_placing_of (nests_of placed.now)).host
        (target_of (meant tree.now.checked) tree.now.tree step).attribute)
        ((nest_placing_of (nests_of placed.now)).host
        (target_of (meant tree.now.checked) tree.now.tree reader.step).attribute)
        (target_of (meant tree.now.checked) tree.now.tree reader.step)
        (target_of (meant tree.now.checked) tree.now.tree step) }
{
    let _nodes = tree.node_count();
    let early = placed.host(attr_of(tree, step));
    let late = placed.host(attr_of(tree, reader.step));
    match (early, late) {
        (None, None) => is_near(tree, kind, step.node, reader.step.node),
        (Some(_), Some(_)) => {
            is_over(tree, reader.host, step.node) && is_inner_early(tree, placed, reader.step, step)
        }
        (None, Some(_)) => is_topdown(kind) && is_over(tree, step.node, reader.step.node),
        (Some(_), None) => is_bottomup(kind) && is_over(tree, reader.step.node, step.node),
    }
}

// Whether it is, in the inner stages of one nest.
fn is_inner_early(tree: &Tree<'_>, placed: &PlacedNests, reader: Step, step: Step) -> bool
    requires sound { IsSound (meant tree.now.checked) }
    requires reader { IsStepOf (meant tree.now.checked) tree.now.tree reader }
    requires step { IsStepOf (meant tree.now.checked) tree.now.tree step }
    requires late { (nest_placing_of (nests_of placed.now)).host
        (target_of (meant tree.now.checked) tree.now.tree reader).attribute ≢ None }
    requires early { (nest_placing_of (nests_of placed.now)).host
        (target_of (meant tree.now.checked) tree.now.tree step).attribute ≢ None }
    ensures early { result ≡ flat.is_early_step (meant tree.now.checked)
        (nest_placing_of (nests_of placed.now)).inner tree.now.tree reader step }
{
    let _nodes = tree.node_count();
    let place = placed.inner(attr_of(tree, step));
    let late = placed.inner(attr_of(tree, reader));
    place.stage < late.stage
        || (place.stage == late.stage
            && place.pass == late.pass
            && is_near(tree, late.kind, step.node, reader.node))
}

fn is_topdown(kind: PassKind) -> bool
    ensures kind { result ≡ reads.is_topdown (kind_of kind) }
{
    match kind {
        PassKind::TopDown => true,
        PassKind::BottomUp | PassKind::InOrder => false,
    }
}

fn is_bottomup(kind: PassKind) -> bool
    ensures kind { result ≡ reads.is_bottomup (kind_of kind) }
{
    match kind {
        PassKind::BottomUp => true,
        PassKind::TopDown | PassKind::InOrder => false,
    }
}
