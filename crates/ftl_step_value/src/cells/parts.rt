//! The parts of the rule of a step.
ghost use Rattle.std.specs.Prelude.{◌≡◌};
ghost use Rattle.ftl_deps.specs.reads.Meant.{meant};
ghost use Rattle.ftl_deps.specs.parts.RuleParts.{parts_meant, parts_named};
ghost use Rattle.ftl_visit.specs.step_reads.StepReads.{MayStandAt};
ghost use Rattle.ftl_step_value.specs.limits.reads.ReadTables.{AreTables, IsSound};
ghost use Rattle.ftl_order.specs.steps.Steps.{IsStepOf, rule_at};

use crate::limits::ReadTables;
use ftl_deps::RuleParts;
use ftl_order::Step;
use ftl_tree::Tree;

/// The parts of the rule of a step of the tree.
#[inline(always)]
pub fn step_parts<'a>(tables: &'a ReadTables, tree: &Tree<'_>, step: Step) -> &'a RuleParts
    requires sound { IsSound (meant tree.now.checked) }
    requires tables { AreTables (meant tree.now.checked) tables.now }
    requires step { IsStepOf (meant tree.now.checked) tree.now.tree step }
    ensures parts { parts_meant result.now
        ≡ parts_named (meant tree.now.checked) (rule_at (meant tree.now.checked) step.rule) }
    ensures may { MayStandAt tree.now step.node (parts_meant result.now) }
{
    let rows = tables.parts.as_slice();
    &rows[step.rule as usize]
}
