//! Why bytes are no page.

ghost use Rattle.std.specs.Prelude.{◌≡◌};
ghost use Rattle.ftl_page.specs.declared.sections.fault.PageFault.TheVariants.{OutOfMemory};

use std::alloc::{AllocError, AllocFailed};

/// A section of a page.
#[derive(Clone, Copy, Debug, PartialEq, Eq)]
pub enum Section {
    Grammar,
    Schedule,
    Document,
    Edits,
}

/// The first fault of a page.
#[derive(Clone, Copy, Debug, PartialEq, Eq)]
pub enum PageFault {
    /// The bytes are not UTF-8.
    NotText,
    /// Line 1 is not the heading `%page 1` or `%page 2`.
    BadVersion,
    /// The line is a heading that names no section.
    UnknownSection { line: u32 },
    /// The line is the second heading of a section.
    SectionTwice { which: Section, line: u32 },
    /// The line asks for a grammar that is not shipped.
    UnknownShipped { line: u32 },
    /// The line is neither blank nor a comment, where no section has a body.
    StrayText { line: u32 },
    /// The page has no such section, and it is needed.
    NoSection { which: Section },
    /// No memory was left for the texts.
    OutOfMemory,
}

impl From<AllocError> for PageFault {
    ghost from_gives = { λ _ e. e ≡ OutOfMemory };

    fn from(_e: AllocError) -> PageFault {
        PageFault::OutOfMemory
    }
}

impl<T: Drop> From<AllocFailed<T>> for PageFault {
    ghost from_gives = { λ _ e. e ≡ OutOfMemory };

    fn from(_e: AllocFailed<T>) -> PageFault {
        PageFault::OutOfMemory
    }
}
