//! The cell that a step fills.
ghost use Rattle.std.specs.Prelude.{◌≡◌};
ghost use Rattle.ftl_deps.specs.reads.Meant.{meant};
ghost use Rattle.ftl_step_value.specs.limits.reads.ReadTables.{IsSound};
ghost use Rattle.ftl_order.specs.steps.Steps.{IsStepOf};
ghost use Rattle.ftl_step_value.specs.cells.ReadCells.{filled_cell};

use crate::cells::seen::kid_cell;
use ftl_order::Step;
use ftl_tree::Tree;

/// The cell of the instance that a step computes.
#[inline(always)]
pub fn target_cell(tree: &Tree<'_>, step: Step) -> u32
    requires sound { IsSound (meant tree.now.checked) }
    requires step { IsStepOf (meant tree.now.checked) tree.now.tree step }
    ensures cell { result ≡ filled_cell (meant tree.now.checked) tree.now.tree step }
{
    let _nodes = tree.node_count();
    let checked = tree.checked();
    let _lawful = checked.grammar();
    let rule = checked.rule(step.rule);
    match rule.child {
        None => tree.instance(step.node, rule.attr),
        Some(child) => kid_cell(tree, step.node, child, step.kid, rule.attr),
    }
}
