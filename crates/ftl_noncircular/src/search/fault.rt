//! Why a grammar is not found to be noncircular.

ghost use Rattle.std.specs.Prelude.{◌≡◌};
ghost use Rattle.ftl_noncircular.specs.declared.search.fault.CircularFault.TheVariants.{OutOfMemory};

use std::alloc::{AllocError, AllocFailed};

/// Why a grammar is not found to be noncircular.
#[derive(Clone, Copy, Debug, PartialEq, Eq)]
pub enum CircularFault {
    /// This attribute of the node, or of the kids in a child, may depend on itself. It is the first
    /// one: by class, the node's own before those of its children in order, then by attribute.
    Circular {
        class: u32,
        child: Option<u32>,
        attr: u32,
    },
    /// No memory was left for the search.
    OutOfMemory,
}

impl From<AllocError> for CircularFault {
    ghost from_gives = { λ _ e. e ≡ OutOfMemory };

    fn from(_: AllocError) -> Self {
        CircularFault::OutOfMemory
    }
}

impl<T: Drop> From<AllocFailed<T>> for CircularFault {
    ghost from_gives = { λ _ e. e ≡ OutOfMemory };

    fn from(_: AllocFailed<T>) -> Self {
        CircularFault::OutOfMemory
    }
}
