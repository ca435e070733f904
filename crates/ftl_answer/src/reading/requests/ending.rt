//! The end of the stages of a page.

ghost use Rattle.ftl_answer.specs.reading.requests.RulesAnswers.{IsEndOf};

use crate::reading::sections::{Decided, Undecided};
use std::alloc::AllocError;

/// The answer that the stages of a page ended with, a refusal or another.
pub fn ended(found: Result<Decided, Undecided>) -> Result<Decided, AllocError>
    ensures end { IsEndOf found result }
{
    match found {
        Ok(decided) | Err(Undecided::Refused(decided)) => Ok(decided),
        Err(Undecided::OutOfMemory) => Err(AllocError),
    }
}
