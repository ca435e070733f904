//! Why a text has no tokens.

ghost use Rattle.std.specs.Prelude.{◌≡◌};
ghost use Rattle.ftl_tokens.specs.declared.scanner.fault.TokenFault.TheVariants.{OutOfMemory};

use std::alloc::{AllocError, AllocFailed};

/// The first place from the left at which a text goes wrong. Places are counted in bytes, from 0.
#[derive(Clone, Copy, Debug, PartialEq, Eq)]
pub enum TokenFault {
    /// Neither white space nor a comment nor a token begins at `at`.
    BadChar { at: u32 },
    /// A number above the greatest that the call allows begins at `at`.
    NumberTooLarge { at: u32 },
    /// No memory was left for the list of tokens.
    OutOfMemory,
}

impl From<AllocError> for TokenFault {
    ghost from_gives = { λ _ e. e ≡ OutOfMemory };

    fn from(_e: AllocError) -> TokenFault {
        TokenFault::OutOfMemory
    }
}

impl<T: Drop> From<AllocFailed<T>> for TokenFault {
    ghost from_gives = { λ _ e. e ≡ OutOfMemory };

    fn from(_e: AllocFailed<T>) -> TokenFault {
        TokenFault::OutOfMemory
    }
}
