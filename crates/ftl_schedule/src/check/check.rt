//! The check of schedules.

ghost use Rattle.std.specs.Prelude.{◌≡◌, IfOk};
ghost use Rattle.ftl_model.specs.layout.Outcome.{Gives};
ghost use Rattle.ftl_order.specs.orders.OrderLaws.{LegalOrderExists, OneListSolves, OneTableSolves};
ghost use Rattle.ftl_order.specs.orders.OrderLaws.{WritersStandBefore};
ghost use Rattle.ftl_schedule.specs.stages.PassLimits.{IsWithinPassLimits};
ghost use Rattle.ftl_schedule.specs.stages.Stages.{stages_of};
ghost use Rattle.ftl_deps.specs.reads.DepRows.{dep_rows};
ghost use Rattle.ftl_deps.specs.reads.Meant.{meant};
ghost use Rattle.ftl_order.specs.faults.FaultLaws.{AreComputed};
ghost use Rattle.ftl_order.specs.declared.faults.fault.VerifyFault.TheVariants.{OutOfMemory};
ghost use Rattle.ftl_schedule.specs.check.Accepted.{OnEachTree, later_fault, verified_as};

use crate::check::accepted::Accepted;
use crate::check::kinds::attribute_count;
use crate::check::missing::first_missing;
use crate::check::unordered::first_unordered;
use crate::places::Placed;
use crate::stages::Schedule;
use ftl_checked::Checked;
use ftl_deps::DepTable;
use ftl_order::VerifyFault;
use std::alloc::Global;

/// The schedule as one that is accepted, or its first fault.
pub fn verify<'a>(
    alloc: Global,
    checked: &'a Checked,
    deps: &DepTable,
    schedule: Schedule,
) -> Result<Accepted<'a>, VerifyFault>
    requires table { deps.now ≡ dep_rows (meant checked.now) }
    requires computed { AreComputed (meant checked.now) (stages_of schedule) }
    requires limits { IsWithinPassLimits (stages_of schedule) }
    ensures exact { Gives OutOfMemory (λ a. a.schedule) result
        (verified_as (meant checked.now) schedule) }
    ensures grammar { IfOk result (λ a. a.checked ≡ checked.now) }
    // what an accepted schedule gives
    ensures one_table { IfOk result
        (λ a. OnEachTree (meant checked.now) (stages_of a.schedule) OneTableSolves) }
    ensures one_list { IfOk result
        (λ a. OnEachTree (meant checked.now) (stages_of a.schedule) OneListSolves) }
    ensures legal_order { IfOk result
        (λ a. OnEachTree (meant checked.now) (stages_of a.schedule) LegalOrderExists) }
    ensures writers_before { IfOk result
        (λ a. OnEachTree (meant checked.now) (stages_of a.schedule) WritersStandBefore) }
{
    let _ = checked.grammar();
    let placed = Placed::new(alloc, attribute_count(checked), schedule)?;
    match later_fault(checked, deps, &placed) {
        Some(fault) => Err(fault),
        None => Ok(Accepted::new(checked, placed)),
    }
}

// The first fault where no attribute has two entries.
fn later_fault(checked: &Checked, deps: &DepTable, placed: &Placed) -> Option<VerifyFault>
    requires table { deps.now ≡ dep_rows (meant checked.now) }
    ensures fault { result ≡ later_fault (meant checked.now) (stages_of placed.now) }
{
    match first_missing(checked, placed) {
        Some(fault) => Some(fault),
        None => first_unordered(checked, deps, placed),
    }
}
