//! What words and a page ask for, before a page is solved, and what is written after. Goes in:
//! words and a source. Comes out: the answer, where nothing is left to be solved, or the page that
//! is to be solved, with how its values are computed and what is to be shown of them, or the page
//! that is to be edited. The answer goes in again, and is written to a sink.
//! `specs/reading/requests/Requests.antt` says what is asked for, what answers it, and what is
//! written.

mod ending;
mod explained;
mod explanation;
mod request;
mod rules;
mod shown;
mod words;
mod write;

pub use ending::ended;
pub use request::{EditedPage, Evaluation, Problem, Request, Undone};
pub use shown::Shown;
pub use words::requested;
pub use write::written;
