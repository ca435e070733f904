//! Why no schedule is found.

ghost use Rattle.std.specs.Prelude.{◌≡◌};
ghost use Rattle.ftl_scheduler.specs.declared.finding.fault.FindFault.TheVariants.{OutOfMemory};

use ftl_schedule::AttrList;
use std::alloc::AllocError;

/// Why no schedule is found. Attributes are numbers of the grammar.
#[derive(Drop)]
pub enum FindFault {
    /// No schedule is ordered: after all passes these attributes are left, by number.
    Stuck { attrs: AttrList },
    /// No memory was left.
    OutOfMemory,
}

impl From<AllocError> for FindFault {
    ghost from_gives = { λ _ e. e ≡ OutOfMemory };

    fn from(_: AllocError) -> Self {
        FindFault::OutOfMemory
    }
}
