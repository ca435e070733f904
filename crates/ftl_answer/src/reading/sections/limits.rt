//! How much the stages of a tree read.

ghost use Rattle.std.specs.Prelude.{◌≡◌, None, IfOk};
ghost use Rattle.ftl_answer.specs.answers.Answer as answer;
ghost use Rattle.ftl_answer.specs.answers.Texts.{planned_tree};
ghost use Rattle.ftl_answer.specs.reading.sections.Outcomes.{Ends, IsOutcome};
ghost use Rattle.ftl_deps.specs.reads.Meant.{meant};
ghost use Rattle.ftl_step_value.specs.limits.faults.PlanFaults.{first_fault};
ghost use Rattle.ftl_answer.specs.refusals.PlanLines.{plan_line};
ghost use Rattle.ftl_nest_check.specs.stages.Nested.{nests_of};
ghost use Rattle.ftl_nests.specs.Nests.{outer_schedule};

use crate::reading::sections::decision::{Undecided, refused};
use crate::reading::sections::status::Status;
use crate::write_plan_fault;
use ftl_checked::Checked;
use ftl_nest_check::AcceptedNests;
use ftl_step_value::limits::{PlanFault, ReadTables, first_fault};
use ftl_tree::Tree;
use std::alloc::{AllocError, Global};

/// The tree, where no outer stage reads too much.
pub(crate) fn within_limits<'a>(
    alloc: Global,
    checked: &'a Checked,
    accepted: &AcceptedNests<'_>,
    tree: Tree<'a>,
) -> Result<Tree<'a>, Undecided>
    requires grammar { tree.checked ≡ checked.now }
    ensures outcome { IsOutcome (planned_tree checked.now accepted.now.schedule tree.entry.tree)
        (λ t. t.tree) result }
    ensures grammar { IfOk result (λ t. t.checked ≡ checked.now) }
    ensures fits { IfOk result (λ t. first_fault (meant checked.now)
        (outer_schedule (nests_of accepted.now.schedule)) t.tree ≡ None) }
{
    match fault_of(alloc, checked, accepted, &tree)? {
        Some(fault) => Err(plan_refused(alloc, fault)),
        None => Ok(tree),
    }
}

/// The first outer stage that reads too much; none where there is none.
fn fault_of(
    alloc: Global,
    checked: &Checked,
    accepted: &AcceptedNests<'_>,
    tree: &Tree<'_>,
) -> Result<Option<PlanFault>, AllocError>
    requires grammar { tree.now.checked ≡ checked.now }
    ensures fault { IfOk result (λ fault. fault ≡ first_fault (meant checked.now)
        (outer_schedule (nests_of accepted.now.schedule)) tree.now.tree) }
{
    let tables = ReadTables::new(alloc, checked)?;
    let _limits = accepted.schedule();
    first_fault(alloc, &tables, accepted.placed().outer_placed(), tree)
}

fn plan_refused(alloc: Global, fault: PlanFault) -> Undecided
    ensures ends { Ends (answer.refused 7 (plan_line fault)) result }
{
    let mut line = Vec::new(alloc);
    match write_plan_fault(&mut line, fault) {
        Ok(()) => refused(Status::DOCUMENT_REFUSED, line),
        Err(_) => Undecided::OutOfMemory,
    }
}
