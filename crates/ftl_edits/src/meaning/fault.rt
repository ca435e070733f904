//! Why a text is no edits of a tree.

ghost use Rattle.std.specs.Prelude.{◌≡◌};
ghost use Rattle.ftl_edits.specs.declared.meaning.fault.EditFault.TheVariants.{OutOfMemory};

use std::alloc::{AllocError, AllocFailed};

/// The first fault of edits. They are numbered from 1 in the order of the text.
#[derive(Clone, Copy, Debug, PartialEq, Eq)]
pub enum EditFault {
    /// The text is no edits: the place in it, in bytes, where no edits go on so.
    Syntax { at: u32 },
    /// There are more than 1048576 edits, so many.
    TooMany { count: u32 },
    /// The first faulty edit, which names no node of the tree.
    UnknownNode { edit: u32 },
    /// The first faulty edit, which names a node and no input of its class or interface.
    UnknownInput { edit: u32 },
    /// No memory was left.
    OutOfMemory,
}

impl From<AllocError> for EditFault {
    ghost from_gives = { λ _ e. e ≡ OutOfMemory };

    fn from(_: AllocError) -> Self {
        EditFault::OutOfMemory
    }
}

impl<T: Drop> From<AllocFailed<T>> for EditFault {
    ghost from_gives = { λ _ e. e ≡ OutOfMemory };

    fn from(_: AllocFailed<T>) -> Self {
        EditFault::OutOfMemory
    }
}
