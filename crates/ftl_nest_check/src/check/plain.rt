//! An accepted schedule that nests nothing, as one that may have nests.

ghost use Rattle.std.specs.Prelude.{◌≡◌, map, IfErr, IfOk};
ghost use Rattle.ftl_order.specs.declared.faults.fault.VerifyFault.TheVariants.{OutOfMemory};
ghost use Rattle.ftl_nests.specs.Flat.{plain, plain_stage};
ghost use Rattle.ftl_schedule.specs.stages.Stages.{pass_of, stages_of};
ghost use Rattle.ftl_nest_check.specs.check.NestAccepted.{IsNestAccepted};
ghost use Rattle.ftl_nest_check.specs.stages.Nested.{nesting_pass_of, nests_of};

use crate::check::accepted::AcceptedNests;
use crate::check::flat_accepted::with_flat;
use crate::places::PlacedNests;
use crate::stages::{NestingPass, NestingPassList, NestingSchedule, NestingStage};
use ftl_checked::Checked;
use ftl_order::VerifyFault;
use ftl_schedule::{Accepted, Pass, Schedule, attribute_count};
use sqlite_items::Items;
use std::alloc::{AllocError, Global};

/// The accepted schedule, which nests nothing, as one that may.
pub fn accepted_plain<'a>(
    alloc: Global,
    checked: &'a Checked,
    accepted: &Accepted<'_>,
) -> Result<AcceptedNests<'a>, AllocError>
    requires grammar { accepted.now.checked ≡ checked.now }
    ensures grammar { IfOk result (λ a. a.checked ≡ checked.now) }
    ensures schedule { IfOk result
        (λ a. nests_of a.schedule ≡ plain (stages_of accepted.now.schedule)) }
{
    let schedule = plain_of(alloc, accepted.schedule())?;
    match placed_with_flat(alloc, checked, schedule) {
        Ok(nests) => Ok(nests),
        Err(VerifyFault::OutOfMemory) => Err(AllocError),
        Err(_) => unreachable!(),
    }
}

/// The schedule, accepted.
fn placed_with_flat<'a>(
    alloc: Global,
    checked: &'a Checked,
    schedule: NestingSchedule,
) -> Result<AcceptedNests<'a>, VerifyFault>
    requires accepted { IsNestAccepted checked.now schedule }
    ensures grammar { IfOk result (λ a. a.checked ≡ checked.now) }
    ensures schedule { IfOk result (λ a. a.schedule ≡ schedule) }
    ensures memory { IfErr result (λ e. e ≡ OutOfMemory) }
{
    let placed = placed_once(alloc, checked, schedule)?;
    with_flat(alloc, checked, placed)
}

/// The schedule with the places of its attributes. It has no fault, so that memory alone can be
/// lacking.
fn placed_once(
    alloc: Global,
    checked: &Checked,
    schedule: NestingSchedule,
) -> Result<PlacedNests, VerifyFault>
    requires accepted { IsNestAccepted checked.now schedule }
    ensures schedule { IfOk result (λ p. p ≡ schedule) }
    ensures memory { IfErr result (λ e. e ≡ OutOfMemory) }
{
    PlacedNests::new(alloc, attribute_count(checked), schedule)
}

/// The same stages, each pass without a nest.
fn plain_of(alloc: Global, schedule: &Schedule) -> Result<NestingSchedule, AllocError>
    ensures plain { IfOk result (λ s. nests_of s ≡ plain (stages_of schedule.now)) }
{
    let mut stages = Items::new(alloc);
    let all = schedule.stages.as_slice();
    for stage in 0..all.len() {
        let passes = plain_passes(alloc, all[stage].passes.as_slice())?;
        stages.push(NestingStage { passes })?;
    }
    Ok(NestingSchedule { stages })
}

fn plain_passes(alloc: Global, all: &[Pass]) -> Result<NestingPassList, AllocError>
    ensures passes { IfOk result (λ found. map nesting_pass_of found
        ≡ plain_stage (map pass_of all.now)) }
{
    let mut passes = Items::new(alloc);
    for pass in 0..all.len() {
        let kind = all[pass].kind;
        let attrs = Items::from_slice(alloc, all[pass].attrs.as_slice())?;
        let nest = None;
        passes.push(NestingPass { kind, attrs, nest })?;
    }
    Ok(passes)
}
