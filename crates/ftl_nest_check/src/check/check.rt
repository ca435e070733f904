//! The check of schedules with nests.

ghost use Rattle.std.specs.Prelude.{◌≡◌, IfOk};
ghost use Rattle.ftl_model.specs.layout.Outcome.{Gives};
ghost use Rattle.ftl_deps.specs.reads.DepRows.{dep_rows};
ghost use Rattle.ftl_deps.specs.reads.Meant.{meant};
ghost use Rattle.ftl_order.specs.declared.faults.fault.VerifyFault.TheVariants.{OutOfMemory};
ghost use Rattle.ftl_nests.specs.NestLaws.{LegalOrderExistsWithNests, OneTableSolvesWithNests};
ghost use Rattle.ftl_nests.specs.NestLaws.{RunsWithNestsSolve, WritersStandBefore};
ghost use Rattle.ftl_nest_check.specs.check.NestAccepted.{MayBeVerified, OnEachTree};
ghost use Rattle.ftl_nest_check.specs.check.NestAccepted.{verified_with_nests};
ghost use Rattle.ftl_nest_check.specs.check.NestFault.{later_nest_fault};
ghost use Rattle.ftl_nest_check.specs.stages.Nested.{nests_of};

use crate::check::accepted::AcceptedNests;
use crate::check::flat_accepted::with_flat;
use crate::check::unordered::first_refused;
use crate::places::PlacedNests;
use crate::stages::NestingSchedule;
use ftl_checked::Checked;
use ftl_deps::DepTable;
use ftl_nests::legal_orders_with_nests;
use ftl_order::VerifyFault;
use ftl_schedule::attribute_count;
use ftl_schedule::check::first_missing;
use std::alloc::Global;

/// The schedule as one that is accepted, or its first fault.
pub fn verify_nests<'a>(
    alloc: Global,
    checked: &'a Checked,
    deps: &DepTable,
    schedule: NestingSchedule,
) -> Result<AcceptedNests<'a>, VerifyFault>
    requires table { deps.now ≡ dep_rows (meant checked.now) }
    requires may { MayBeVerified (meant checked.now) (nests_of schedule) }
    ensures exact { Gives OutOfMemory (λ a. a.schedule) result
        (verified_with_nests (meant checked.now) schedule) }
    ensures grammar { IfOk result (λ a. a.checked ≡ checked.now) }
    // what an accepted schedule gives
    ensures one_table { IfOk result
        (λ a. OnEachTree (meant checked.now) (nests_of a.schedule) OneTableSolvesWithNests) }
    ensures legal_order { IfOk result
        (λ a. OnEachTree (meant checked.now) (nests_of a.schedule) LegalOrderExistsWithNests) }
    ensures writers_before { IfOk result
        (λ a. OnEachTree (meant checked.now) (nests_of a.schedule) WritersStandBefore) }
    ensures runs { IfOk result
        (λ a. OnEachTree (meant checked.now) (nests_of a.schedule) RunsWithNestsSolve) }
{
    let _ = checked.grammar();
    legal_orders_with_nests();
    let placed = PlacedNests::new(alloc, attribute_count(checked), schedule)?;
    match later_fault(checked, deps, &placed) {
        Some(fault) => Err(fault),
        None => {
            let accepted = with_flat(alloc, checked, placed)?;
            Ok(accepted)
        }
    }
}

// The first fault where no attribute has two entries.
fn later_fault(checked: &Checked, deps: &DepTable, placed: &PlacedNests) -> Option<VerifyFault>
    requires table { deps.now ≡ dep_rows (meant checked.now) }
    ensures fault { result ≡ later_nest_fault (meant checked.now) (nests_of placed.now) }
{
    match first_missing(checked, placed.outer_placed()) {
        Some(fault) => Some(fault),
        None => first_refused(checked, deps, placed),
    }
}
