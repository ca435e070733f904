//! Why a call of this crate gives up.
ghost use Rattle.std.specs.Prelude.{◌≡◌};
ghost use Rattle.ftl_edge.specs.declared.fault.ReadAllFault.TheVariants.{ReadFault, OutOfMemory};

use std::alloc::AllocError;

/// A call of a source or a sink failed, and its count of faults rose.
#[derive(Debug, Clone, Copy, PartialEq, Eq)]
pub struct Failed;

/// Why a source was not read to its end.
#[derive(Debug, Clone, Copy, PartialEq, Eq)]
pub enum ReadAllFault {
    /// The source failed.
    ReadFault,
    /// More bytes than the limit were taken.
    TooLong,
    /// There was no memory for more bytes.
    OutOfMemory,
}

/// The sink failed, or took none of the bytes that were left, before all of them were written.
#[derive(Debug, Clone, Copy, PartialEq, Eq)]
pub struct WriteFault;

impl From<Failed> for ReadAllFault {
    ghost from_gives = { λ _ e. e ≡ ReadFault };

    fn from(_: Failed) -> Self {
        ReadAllFault::ReadFault
    }
}

impl From<AllocError> for ReadAllFault {
    ghost from_gives = { λ _ e. e ≡ OutOfMemory };

    fn from(_: AllocError) -> Self {
        ReadAllFault::OutOfMemory
    }
}

impl From<Failed> for WriteFault {
    fn from(_: Failed) -> Self {
        WriteFault
    }
}
