//! Why a call is not done.

ghost use Rattle.std.specs.Prelude.{◌≡◌};
ghost use Rattle.maugzeris_c.specs.declared.context.fault.Fault.TheVariants as fault;

use maugzeris::Status;
use std::alloc::{AllocError, AllocFailed};

/// Why a call is not done.
#[derive(Debug, Drop)]
pub enum Fault {
    /// A text is refused. The context keeps the line.
    Refused(Status),
    /// A value is Overflow.
    Overflow,
    /// No memory was left.
    OutOfMemory,
    /// The attribute is no input of the node, or the number out of its range.
    NotTaken,
    /// Nothing has the number that was given, or the page is not laid out yet.
    Wrong,
    /// The buffer is too small.
    NoRoom,
}

impl From<AllocError> for Fault {
    ghost from_gives = { λ _ e. e ≡ fault.OutOfMemory };

    fn from(_: AllocError) -> Self {
        Fault::OutOfMemory
    }
}

impl<T: Drop> From<AllocFailed<T>> for Fault {
    ghost from_gives = { λ _ e. e ≡ fault.OutOfMemory };

    fn from(_: AllocFailed<T>) -> Self {
        Fault::OutOfMemory
    }
}
