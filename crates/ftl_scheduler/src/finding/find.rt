//! The automatic schedule of a checked grammar.

ghost use Rattle.std.specs.Prelude.{◌≡◌, IfErr, IfOk};
ghost use Rattle.ftl_order.specs.automatic.Automatic.{IsAutomatic};
ghost use Rattle.ftl_order.specs.faults.FaultLaws.{AreComputed};
ghost use Rattle.ftl_order.specs.orders.Ordered.{IsOrdered};
ghost use Rattle.ftl_schedule.specs.stages.PassLimits.{IsWithinPassLimits};
ghost use Rattle.ftl_schedule.specs.stages.Stages.{stages_of};
ghost use Rattle.ftl_deps.specs.reads.DepRows.{dep_rows};
ghost use Rattle.ftl_deps.specs.reads.Meant.{meant};
ghost use Rattle.ftl_order.specs.declared.faults.fault.VerifyFault.TheVariants as verify;
ghost use Rattle.ftl_scheduler.specs.outcomes.Outcomes.{IsOutcome};
ghost use Rattle.ftl_scheduler.specs.finding.Finds.{IsStuckBy, NoneIsOrderedBy, SomeIsOrdered};
ghost use Rattle.ftl_scheduler.specs.declared.finding.fault.FindFault.TheVariants.{OutOfMemory};

use crate::finding::fault::FindFault;
use crate::finding::tables::tables_of;
use crate::outcomes::{Outcome, find_outcome};
use ftl_checked::Checked;
use ftl_deps::DepTable;
use ftl_meaning::faultless_grammars_are_small;
use ftl_nests::flat_schedules;
use ftl_order::faultless_is_ordered;
use ftl_schedule::{Accepted, VerifyFault, attribute_count, verify};
use std::alloc::{AllocError, Global};

/// The automatic schedule, accepted, or the attributes that are left where there is none.
pub fn find_schedule<'a>(
    alloc: Global,
    checked: &'a Checked,
    deps: &DepTable,
) -> Result<Accepted<'a>, FindFault>
    requires table { deps.now ≡ dep_rows (meant checked.now) }
    // where a schedule is found
    ensures grammar { IfOk result (λ a. a.checked ≡ checked.now) }
    ensures found { IfOk result (λ a. IsAutomatic (meant checked.now) (stages_of a.schedule)) }
    ensures ordered { IfOk result (λ a. IsOrdered (meant checked.now) (stages_of a.schedule)) }
    ensures computed { IfOk result (λ a. AreComputed (meant checked.now) (stages_of a.schedule)) }
    ensures limits { IfOk result (λ a. IsWithinPassLimits (stages_of a.schedule)) }
    ensures exists { IfOk result (λ a. SomeIsOrdered (meant checked.now)) }
    // where there is none
    ensures stuck { IfErr result (IsStuckBy (meant checked.now)) }
    ensures none { IfErr result (NoneIsOrderedBy (meant checked.now)) }
{
    let _ = checked.grammar();
    faultless_is_ordered();
    faultless_grammars_are_small();
    flat_schedules();
    let outcome = outcome_of(alloc, checked, deps)?;
    match outcome {
        Outcome::Stuck(attrs) => Err(FindFault::Stuck { attrs }),
        Outcome::Found(schedule) => match verify(alloc, checked, deps, schedule) {
            Ok(accepted) => Ok(accepted),
            Err(fault) => Err(no_memory(fault)),
        },
    }
}

// The automatic schedule, or where there is none.
fn outcome_of(alloc: Global, checked: &Checked, deps: &DepTable) -> Result<Outcome, AllocError>
    requires table { deps.now ≡ dep_rows (meant checked.now) }
    ensures outcome { IfOk result (IsOutcome (meant checked.now)) }
{
    let _ = checked.grammar();
    let (tables, all) = tables_of(alloc, checked, deps)?;
    find_outcome(alloc, &tables, attribute_count(checked), &all)
}

// An ordered schedule is refused only where no memory was left.
fn no_memory(fault: VerifyFault) -> FindFault
    requires memory { fault ≡ verify.OutOfMemory }
    ensures memory { result ≡ OutOfMemory }
{
    let _ = fault;
    FindFault::OutOfMemory
}
