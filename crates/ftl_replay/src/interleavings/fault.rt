ghost use Rattle.std.specs.Prelude.{◌≡◌};
ghost use Rattle.ftl_replay.specs.declared.interleavings.fault.ReplayFault.TheVariants as faults;

use std::alloc::{AllocError, AllocFailed};

/// Why events were not replayed.
#[derive(Clone, Copy, Debug, PartialEq, Eq)]
pub enum ReplayFault {
    /// The event at this place is the first that is no step.
    NoStep { at: u32 },
    OutOfMemory,
}

impl From<AllocError> for ReplayFault {
    ghost from_gives = { λ _ e. e ≡ faults.OutOfMemory };

    fn from(_: AllocError) -> Self {
        ReplayFault::OutOfMemory
    }
}

impl<T: Drop> From<AllocFailed<T>> for ReplayFault {
    ghost from_gives = { λ _ e. e ≡ faults.OutOfMemory };

    fn from(_: AllocFailed<T>) -> Self {
        ReplayFault::OutOfMemory
    }
}
