//! The answer to words and to the bytes of a page, as a definition without code.
//! `specs/answers/Answers.antt` builds it of stages, each of which ends with a refusal or hands a
//! value on: words, page, tokens, grammar, schedule, document, reads, edits, and the text of the
//! command.

mod laws;
mod plain;
mod worked;

pub use laws::one_answer;
pub use plain::plain_schedules;
pub use worked::{worked_refusals, worked_stages, worked_summaries};
