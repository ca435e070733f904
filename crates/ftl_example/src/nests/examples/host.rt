//! The host of a step.
ghost use Rattle.std.specs.Prelude.{◌≡◌, ◌<◌};
ghost use Rattle.ftl_deps.specs.reads.Meant.{meant};
ghost use Rattle.ftl_step_value.specs.limits.reads.ReadTables.{IsSound};
ghost use Rattle.ftl_model.specs.layout.Path.{node_at};
ghost use Rattle.ftl_model.specs.layout.Tree.{size};
ghost use Rattle.ftl_nest_check.specs.stages.Nested.{nests_of};
ghost use Rattle.ftl_example.specs.nests.examples.EarlySteps.{IsHostedStep};
ghost use Rattle.ftl_nests.specs.Hosted.{nearest};
ghost use Rattle.ftl_nests.specs.Nests.{nest_placing_of};
ghost use Rattle.ftl_order.specs.steps.Steps.{IsStepOf};

use crate::examples::attr_of;
use ftl_nest_check::places::PlacedNests;
use ftl_order::Step;
use ftl_tree::Tree;

/// A step, and the node of its host; its own node where it stands in no nest.
#[derive(Clone, Copy)]
pub struct HostedStep {
    pub step: Step,
    pub host: u32,
}

/// A step with its host.
pub(crate) fn hosted_step(tree: &Tree<'_>, placed: &PlacedNests, step: Step) -> HostedStep
    requires sound { IsSound (meant tree.now.checked) }
    requires step { IsStepOf (meant tree.now.checked) tree.now.tree step }
    ensures step { result.step ≡ step }
    ensures host { IsHostedStep (meant tree.now.checked) (nest_placing_of (nests_of placed.now))
        tree.now.tree result }
{
    let host = match placed.host(attr_of(tree, step)) {
        Some(class) => nearest(tree, class, step.node),
        None => step.node,
    };
    HostedStep { step, host }
}

// The nearest node of a class at or above a node; the root where there is none.
fn nearest(tree: &Tree<'_>, class: u32, node: u32) -> u32
    requires node { node < size tree.now.tree }
    ensures within { result < size tree.now.tree }
    ensures nearest { node_at tree.now.tree result
        ≡ nearest tree.now.tree class (node_at tree.now.tree node) }
{
    let _nodes = tree.node_count();
    let mut host = node;
    while tree.class(host) != class {
        match tree.parent(host) {
            Some(parent) => host = parent,
            None => return host,
        }
    }
    host
}
