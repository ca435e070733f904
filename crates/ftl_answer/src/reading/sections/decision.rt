//! Answers that are decided.

ghost use Rattle.std.specs.Prelude.{◌≡◌};
ghost use Rattle.ftl_answer.specs.answers.Answer as answer;
ghost use Rattle.ftl_answer.specs.reading.sections.Outcomes.{Ends};
ghost use Rattle.ftl_answer.specs.declared.reading.sections.decision.Undecided.TheVariants.{OutOfMemory};

use crate::reading::sections::status::Status;
use std::alloc::{AllocError, Global};

/// What is to be written, and the status to end with.
#[derive(Drop)]
pub struct Decided {
    pub status: Status,
    pub text: Vec<u8>,
}

/// Why a stage hands nothing on.
#[derive(Drop)]
pub enum Undecided {
    /// It ends with an answer that refuses.
    Refused(Decided),
    /// No memory was left.
    OutOfMemory,
}

impl From<AllocError> for Undecided {
    ghost from_gives = { λ _ e. e ≡ OutOfMemory };

    fn from(_: AllocError) -> Self {
        Undecided::OutOfMemory
    }
}

/// The end with this line.
pub fn refused(status: Status, line: Vec<u8>) -> Undecided
    ensures ends { Ends (answer.refused status.0 line.items) result }
{
    let mut text = line;
    match text.push(b'\n') {
        Ok(()) => Undecided::Refused(Decided { status, text }),
        Err(_) => Undecided::OutOfMemory,
    }
}
