//! Why there is no example.
ghost use Rattle.std.specs.Prelude.{◌≡◌};
ghost use Rattle.ftl_example.specs.declared.trees.fault.ExampleFault.TheVariants as fault;

use std::alloc::AllocError;

/// Why no example is given.
#[derive(Clone, Copy, Debug, PartialEq, Eq)]
pub enum ExampleFault {
    /// No tree of the grammar shows the pair.
    NoTree,
    /// Some tree does, and each that does has more than 512 nodes.
    TooLarge,
    /// No memory was left to build it.
    OutOfMemory,
}

impl From<AllocError> for ExampleFault {
    ghost from_gives = { λ _ e. e ≡ fault.OutOfMemory };

    fn from(_: AllocError) -> Self {
        ExampleFault::OutOfMemory
    }
}
