//! Why a page is refused, for people. Goes in: the texts of a page and the line that refuses it.
//! Comes out: the tokens that the line means, and notes: what was expected there, where else to
//! look, and what may have been meant. The notes are only tested.
//!
//! - `case`: the texts of a page with their tokens, and what is found out of them
//! - `lines`: what a line tells
//! - `grammar`, `schedule`, `document`: faults of meaning, by section
//! - `syntax`: what was expected where a text goes wrong, and slips
//! - `loops`: rules that wait for each other
//! - `pairs`: why a rule may run before one that writes what it reads
//! - `page`: faults of headings

mod case;
mod document;
mod expected;
mod grammar;
mod lines;
mod loops;
mod names;
mod page;
mod pairs;
mod phrases;
mod reason;
mod rules;
mod schedule;
mod slips;
mod syntax;

pub use case::{Case, Sources, heading_word, scans_of};
use ftl_page::Section;
pub use page::page_notes;
pub use reason::{Range, Reason};
use std::alloc::{AllocError, Global};

/// Why a section is refused: by the line that refuses it, and the byte of its text that the line
/// tells, if it tells one.
pub fn reason_of<'l>(
    alloc: Global,
    case: &Case<'l>,
    section: Section,
    byte: Option<usize>,
    line: &'l str,
) -> Result<Reason<'l>, AllocError> {
    if let Some(byte) = byte {
        return syntax::syntax_reason(alloc, case, section, byte, line);
    }
    match section {
        Section::Grammar => grammar::grammar_reason(alloc, case, line),
        Section::Schedule => schedule::schedule_reason(alloc, case, line),
        Section::Document => document::document_reason(alloc, case, line),
        Section::Edits => Ok(Reason::silent(alloc)),
    }
}
