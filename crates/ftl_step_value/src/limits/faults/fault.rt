//! Why there is no plan.

ghost use Rattle.std.specs.Prelude.{◌≡◌};
ghost use Rattle.ftl_step_value.specs.declared.limits.faults.fault.PlanFault.TheVariants as fault;

use std::alloc::AllocError;

/// Why there is no plan. Stages are counted from 1.
#[derive(Clone, Copy, Debug, PartialEq, Eq)]
pub enum PlanFault {
    /// The steps of a stage have more than 67108864 reads.
    TooManyReads { stage: u32, count: u64 },
    /// A step has more than 1048576 reads.
    StepTooWide { stage: u32, count: u64 },
    /// No memory was left.
    OutOfMemory,
}

impl From<AllocError> for PlanFault {
    ghost from_gives = { λ _ e. e ≡ fault.OutOfMemory };

    fn from(_: AllocError) -> Self {
        PlanFault::OutOfMemory
    }
}
