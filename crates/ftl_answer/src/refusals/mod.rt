//! The lines that refuse. Goes in: the first fault of a page, a text, a grammar, a schedule or a
//! document, the first circular vertex of a grammar, or the first fault of edits. Comes out: its
//! line, without the line feed, at the end of a buffer. The files of `specs/` say which line each
//! fault has.

mod circular;
mod document;
mod edits;
mod grammar;
mod names;
mod page;
pub(crate) mod pieces;
mod plan;
mod schedule;
mod text;
mod worked;

pub use circular::write_circular_fault;
pub use document::write_document_fault;
pub use edits::write_edit_fault;
pub use grammar::write_grammar_fault;
pub use page::write_page_fault;
pub use plan::write_plan_fault;
pub use schedule::{write_schedule_fault, write_stuck, write_verify_fault};
pub use text::{write_syntax_fault, write_token_fault};
pub use worked::{lines_of_grammars, lines_of_pages, lines_of_texts};
