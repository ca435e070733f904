//! An accepted schedule with the one without nests.

ghost use Rattle.std.specs.Prelude.{◌≡◌, IfErr, IfOk};
ghost use Rattle.ftl_meaning.specs.faults.FirstFault as grammar;
ghost use Rattle.ftl_order.specs.declared.faults.fault.VerifyFault.TheVariants.{OutOfMemory};
ghost use Rattle.ftl_schedule.specs.check.AcceptedSchedule.{IsAccepted};
ghost use Rattle.ftl_schedule.specs.stages.Stages.{stages_of};
ghost use Rattle.ftl_nest_check.specs.check.NestAccepted.{IsFlatOf, IsNestAccepted};
ghost use Rattle.ftl_nest_check.specs.check.WithoutNests.{without_nests};
ghost use Rattle.ftl_nest_check.specs.stages.Nested.{nests_of};

use crate::check::accepted::AcceptedNests;
use crate::flat::without_nests;
use crate::places::PlacedNests;
use ftl_checked::Checked;
use ftl_order::VerifyFault;
use ftl_schedule::places::Placed;
use ftl_schedule::{Accepted, attribute_count};
use std::alloc::Global;

/// The schedule with the one without nests.
pub(crate) fn with_flat<'a>(
    alloc: Global,
    checked: &'a Checked,
    placed: PlacedNests,
) -> Result<AcceptedNests<'a>, VerifyFault>
    requires accepted { IsNestAccepted checked.now placed }
    ensures grammar { IfOk result (λ a. a.checked ≡ checked.now) }
    ensures schedule { IfOk result (λ a. a.schedule ≡ placed) }
    ensures memory { IfErr result (λ e. e ≡ OutOfMemory) }
{
    let flat = flat_accepted(alloc, checked, &placed)?;
    Ok(AcceptedNests::new(checked, placed, flat))
}

/// The accepted schedule without nests.
fn flat_accepted<'a>(
    alloc: Global,
    checked: &'a Checked,
    placed: &PlacedNests,
) -> Result<Accepted<'a>, VerifyFault>
    requires accepted { IsNestAccepted checked.now placed.now }
    ensures flat { IfOk result (λ a. IsFlatOf a checked.now placed.now) }
    ensures memory { IfErr result (λ e. e ≡ OutOfMemory) }
{
    let flat = placed_without_nests(alloc, checked, placed)?;
    Ok(Accepted::new(checked, flat))
}

/// The schedule without nests, with the places of its attributes. No attribute has two entries in
/// it, so that memory alone can be lacking.
fn placed_without_nests(
    alloc: Global,
    checked: &Checked,
    placed: &PlacedNests,
) -> Result<Placed, VerifyFault>
    requires accepted { IsNestAccepted checked.now placed.now }
    ensures stages { IfOk result (λ p. stages_of p ≡ without_nests (nests_of placed.now)) }
    ensures accepted { IfOk result (λ p. IsAccepted checked.now p) }
    ensures memory { IfErr result (λ e. e ≡ OutOfMemory) }
{
    let _ = checked.grammar();
    let flat = without_nests(alloc, placed.schedule())?;
    Placed::new(alloc, attribute_count(checked), flat)
}
