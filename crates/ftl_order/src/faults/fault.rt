//! Why a schedule is not accepted.

ghost use Rattle.std.specs.Prelude.{◌≡◌};
ghost use Rattle.ftl_order.specs.declared.faults.fault.VerifyFault.TheVariants as fault;

use std::alloc::AllocError;

/// Why a schedule is not accepted. Attributes and rules are numbers of the grammar.
#[derive(Clone, Copy, Debug, PartialEq, Eq)]
pub enum VerifyFault {
    /// The attribute has a second entry.
    Twice { attr: u32 },
    /// The attribute is computed and has no entry.
    Missing { attr: u32 },
    /// One rule reads what the other writes, or itself does, and the schedule doesn't have the
    /// writer earlier.
    Unordered { reader: u32, writer: u32 },
    /// No memory was left to look for a fault.
    OutOfMemory,
}

impl From<AllocError> for VerifyFault {
    ghost from_gives = { λ _ e. e ≡ fault.OutOfMemory };

    fn from(_: AllocError) -> Self {
        VerifyFault::OutOfMemory
    }
}
