//! Refusals.

ghost use Rattle.std.specs.Prelude.{◌≡◌, ◌≢◌, MatchOption};
ghost use Rattle.ftl_answer.specs.answers.Texts.{status_of};
ghost use Rattle.ftl_page.specs.declared.sections.fault.Section.{Section as SectionName};
ghost use Rattle.maugzeris.specs.declared.refusals.refusal.Refusal.TheVariants.{OutOfMemory};
ghost use Rattle.maugzeris.specs.refusals.Answers.{line_told, refusal_of, status_told};
ghost use Rattle.maugzeris.specs.refusals.Places.{TellsByte, ToldByte};

use crate::refusals::place::byte_in;
use ftl_answer::reading::{Decided, Status, Undecided};
use ftl_page::Section;
use std::alloc::{AllocError, AllocFailed};

/// Why a text is refused.
#[derive(Debug, Drop)]
pub enum Refusal {
    /// The text is refused. The line is the one that the program prints, with its line feed.
    Refused { status: Status, line: Vec<u8> },
    /// No memory was left.
    OutOfMemory,
}

impl From<AllocError> for Refusal {
    ghost from_gives = { λ _ e. e ≡ OutOfMemory };

    fn from(_: AllocError) -> Self {
        Refusal::OutOfMemory
    }
}

impl Refusal {
    /// The status that the program ends with.
    pub fn status(&self) -> Status
        ensures status { result.0 ≡ status_told self.now }
    {
        match self {
            Refusal::Refused { status, line: _ } => *status,
            Refusal::OutOfMemory => Status::OUT_OF_MEMORY,
        }
    }

    /// The line that the program prints, with its line feed; empty where memory ran out.
    pub fn line(&self) -> &[u8]
        ensures line { result.now ≡ line_told self.now }
    {
        match self {
            Refusal::Refused { status: _, line } => line.as_slice(),
            Refusal::OutOfMemory => &[],
        }
    }

    /// The section that is refused; none of a text that is too long, and where memory ran out.
    pub fn section(&self) -> Option<Section>
        ensures section { MatchOption result
            ((which : SectionName) → status_told self.now ≢ status_of which)
            (λ which. status_told self.now ≡ status_of which) }
    {
        section_by(self.status())
    }

    /// The byte at which the text goes wrong, from its beginning: where its line says that a
    /// character or a number is bad there, that the syntax goes wrong, or that too much is open.
    pub fn byte(&self) -> Option<u32>
        ensures byte { ToldByte (TellsByte (line_told self.now)) result }
    {
        byte_in(self.line())
    }
}

/// The section of a status.
fn section_by(status: Status) -> Option<Section>
    ensures section { MatchOption result
        ((which : SectionName) → status.0 ≢ status_of which) (λ which. status.0 ≡ status_of which) }
{
    match status.0 {
        5 => Some(Section::Grammar),
        6 => Some(Section::Schedule),
        7 => Some(Section::Document),
        10 => Some(Section::Edits),
        _ => None,
    }
}

/// The refusal with which a stage ends.
pub(crate) fn refusal_of(end: Undecided) -> Refusal
    ensures refusal { result ≡ refusal_of end }
{
    match end {
        Undecided::Refused(decided) => {
            let Decided { status, text } = decided;
            Refusal::Refused { status, line: text }
        }
        Undecided::OutOfMemory => Refusal::OutOfMemory,
    }
}
