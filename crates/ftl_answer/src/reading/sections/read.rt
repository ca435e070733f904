//! The first stages: the page, and the tokens of a section.

ghost use Rattle.std.specs.Prelude.{◌≡◌, ◌≤◌, length, string_bytes, string_len, IfOk};
ghost use Rattle.ftl_model.specs.layout.Limits.{most_page_bytes};
ghost use Rattle.ftl_answer.specs.answers.Answer as answer;
ghost use Rattle.ftl_answer.specs.answers.Texts.{page, status_of, tokens};
ghost use Rattle.ftl_base.specs.Widths.{greatest_of_width};
ghost use Rattle.ftl_page.specs.sections.Texts.{HasTextsUpTo};
ghost use Rattle.ftl_answer.specs.refusals.PageLines.{page_line, too_long_line};
ghost use Rattle.ftl_answer.specs.refusals.TextLines.{token_line};
ghost use Rattle.ftl_answer.specs.reading.sections.Outcomes.{Ends, IsOutcome};

use crate::reading::sections::decision::{Undecided, refused};
use crate::reading::sections::status::Status;
use crate::{write_page_fault, write_token_fault};
use ftl_base::Width;
use ftl_page::{Need, Page, PageFault, Section, split_page};
use ftl_tokens::{Scanned, TokenFault, WideScanned, document_tokens, tokens};
use std::alloc::Global;

/// The most bytes of a page.
pub(crate) const MOST_BYTES: usize = 67108864;

/// The sections of a page that are needed.
#[inline(never)]
pub fn read_page(alloc: Global, bytes: &[u8], need: Need) -> Result<Page, Undecided>
    ensures outcome { IsOutcome (page need bytes.now) (λ p. p) result }
    ensures short { IfOk result (HasTextsUpTo most_page_bytes) }
{
    if bytes.len() > MOST_BYTES {
        return Err(too_long(alloc));
    }
    match split_page(alloc, bytes, need) {
        Ok(page) => Ok(page),
        Err(PageFault::OutOfMemory) => Err(Undecided::OutOfMemory),
        Err(fault) => Err(page_refused(alloc, &fault)),
    }
}

fn too_long(alloc: Global) -> Undecided
    ensures ends { Ends (answer.refused 4 too_long_line) result }
{
    let mut line = Vec::new(alloc);
    match line.extend_from_slice(b"refused page: too long") {
        Ok(()) => refused(Status::PAGE_REFUSED, line),
        Err(_) => Undecided::OutOfMemory,
    }
}

fn page_refused(alloc: Global, fault: &PageFault) -> Undecided
    ensures ends { Ends (answer.refused 4 (page_line fault.now)) result }
{
    let mut line = Vec::new(alloc);
    match write_page_fault(&mut line, fault) {
        Ok(()) => refused(Status::PAGE_REFUSED, line),
        Err(_) => Undecided::OutOfMemory,
    }
}

/// The status of a refusal in a section.
fn status_of(section: Section) -> Status
    ensures status { result.0 ≡ status_of section }
{
    match section {
        Section::Grammar => Status::GRAMMAR_REFUSED,
        Section::Schedule => Status::SCHEDULE_REFUSED,
        Section::Document => Status::DOCUMENT_REFUSED,
        Section::Edits => Status::EDITS_REFUSED,
    }
}

/// The end with the line of a text that is no list of tokens.
pub fn tokens_refused(alloc: Global, section: Section, fault: TokenFault) -> Undecided
    ensures ends { Ends (answer.refused (status_of section) (token_line section fault)) result }
{
    let mut line = Vec::new(alloc);
    match write_token_fault(&mut line, section, fault) {
        Ok(()) => refused(status_of(section), line),
        Err(_) => Undecided::OutOfMemory,
    }
}

/// The text of a section with its tokens.
pub fn section_tokens(alloc: Global, section: Section, text: String) -> Result<Scanned, Undecided>
    requires short { string_len text ≤ most_page_bytes }
    ensures outcome { IsOutcome (tokens section 2147483647 (string_bytes text)) (λ s. s) result }
    ensures short { IfOk result (λ s. length s.text ≤ most_page_bytes) }
{
    match tokens(alloc, text) {
        Ok(scanned) => Ok(scanned),
        Err(TokenFault::OutOfMemory) => Err(Undecided::OutOfMemory),
        Err(fault) => Err(tokens_refused(alloc, section, fault)),
    }
}

/// The greatest number of a width.
pub fn greatest_of(width: Width) -> u64
    ensures greatest { result ≡ greatest_of_width width }
{
    match width {
        Width::Narrow => 2147483647,
        Width::Wide => 140737488355327,
    }
}

/// The text of a section with its tokens, whose numbers are those of a width.
pub fn wide_tokens(
    alloc: Global,
    section: Section,
    width: Width,
    text: String,
) -> Result<WideScanned, Undecided>
    requires short { string_len text ≤ most_page_bytes }
    ensures outcome { IsOutcome (tokens section (greatest_of_width width) (string_bytes text))
        (λ s. s.tokenized) result }
    ensures greatest { IfOk result (λ s. s.greatest ≡ greatest_of_width width) }
{
    match document_tokens(alloc, text, greatest_of(width)) {
        Ok(scanned) => Ok(scanned),
        Err(TokenFault::OutOfMemory) => Err(Undecided::OutOfMemory),
        Err(fault) => Err(tokens_refused(alloc, section, fault)),
    }
}
