//! Why a sample has no page.

ghost use Rattle.std.specs.Prelude.{◌≡◌};
ghost use Rattle.ftl_boxes.specs.declared.fault.SampleFault.TheVariants.{OutOfMemory};

use std::alloc::AllocError;

/// Why a sample has no page.
#[derive(Clone, Copy, Debug, PartialEq, Eq)]
pub enum SampleFault {
    /// The grammar of this name is not shipped.
    NameUnknown,
    /// The grammar is shipped, and the size is not from 1 to 200000.
    SizeRange { n: u32 },
    /// No memory was left for the text.
    OutOfMemory,
}

impl From<AllocError> for SampleFault {
    ghost from_gives = { λ _ e. e ≡ OutOfMemory };

    fn from(_e: AllocError) -> SampleFault {
        SampleFault::OutOfMemory
    }
}
