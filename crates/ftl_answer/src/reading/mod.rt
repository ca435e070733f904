//! What words and a page ask for, before a page is solved, and what is written after. Goes in:
//! words and a source. Comes out: the answer, where nothing is left to be solved, or the page that
//! is to be solved; and the answer in a sink.
//!
//! - `sections`: `read_page`, `grammar_of`, `schedule_of`, `tree_of`, `edits_of`: from the bytes of
//!   a page to its tree and its edits; `grammar_of_text`, `automatic_schedule`, `written_schedule`:
//!   the same of texts with no page; `tree_of_document`: the tree of a document that is written by
//!   calls; `noncircular_of`, `grown_tree_of`: where no schedule plays a part
//! - `requests`: `requested`, `written`; what the commands come to that show no table

pub mod requests;
pub mod sections;

pub use requests::{
    EditedPage, Evaluation, Problem, Request, Shown, Undone, ended, requested, written,
};
pub use sections::{
    Decided, Status, Undecided, automatic_schedule, edits_of, grammar_of, grammar_of_text,
    grown_tree_of, noncircular_of, read_page, schedule_of, tree_of, tree_of_document,
    written_schedule,
};
