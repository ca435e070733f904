//! Why a text is refused. Goes in: a text, or the end of a stage that hands nothing on. Comes out:
//! the refusal that the program would print, with its status. `specs/refusals/Answers.antt` says
//! when a call's result is an outcome of a stage of `ftl_answer::answers`, and
//! `specs/refusals/Places.antt` which lines tell a byte of the text.

mod place;
mod refusal;
mod short;

pub use refusal::Refusal;
pub(crate) use refusal::refusal_of;
pub(crate) use short::short_text;
