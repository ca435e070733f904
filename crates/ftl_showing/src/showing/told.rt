//! What is told of refusals.

use crate::showing::answer::{Answer, File};
use crate::showing::texts::Texts;
use ftl_refusals::{
    Case, Mark, Range, Reason, Sources, Spot, heading_word, line_pointed_at, mark_of,
    mark_of_token, page_notes, print_refusal, reason_of, scans_of, width_of,
};
use maugzeris::{Refusal, Section, Status, Width};
use std::alloc::{AllocError, Global};

/// The refusal of a page whose sections were read.
pub fn refusal_told(
    alloc: Global,
    file: File<'_>,
    texts: &Texts,
    refusal: &Refusal,
) -> Result<Answer, AllocError> {
    let Some(section) = refusal.section() else {
        return told(alloc, file, None, "", refusal.status(), refusal.line());
    };
    let sources = sources_of(file, texts);
    let scans = scans_of(alloc, sources)?;
    let case = Case {
        sources,
        scans: &scans,
    };
    let byte = match refusal.byte() {
        Some(byte) => Some(byte as usize),
        None => None,
    };
    let reason = reason_of(alloc, &case, section, byte, text_of(refusal.line()))?;
    let Reason { range, notes } = reason;
    let spot = match (range, byte) {
        (Some(range), _) => spot_of_range(&case, range),
        (None, Some(byte)) => spot_of_byte(&case, section, byte),
        (None, None) => None,
    };
    told(
        alloc,
        file,
        spot,
        notes.as_str(),
        refusal.status(),
        refusal.line(),
    )
}

fn sources_of<'s>(file: File<'s>, texts: &'s Texts) -> Sources<'s> {
    Sources {
        file: file.bytes,
        grammar: texts.grammar.as_str(),
        schedule: texts.schedule_text(),
        document: texts.document.as_str(),
        edits: texts.edits.as_str(),
        wide: texts.width == Width::Wide,
    }
}

/// The refusal of bytes that are no page.
pub fn page_told(
    alloc: Global,
    file: File<'_>,
    status: Status,
    line: &[u8],
) -> Result<Answer, AllocError> {
    let spot = match line_pointed_at(text_of(line)) {
        Some(line) => Some(Spot {
            line,
            column: None,
            width: 0,
        }),
        None => None,
    };
    let notes = page_notes(alloc, text_of(line))?;
    told(alloc, file, spot, notes.as_str(), status, line)
}

fn told(
    alloc: Global,
    file: File<'_>,
    spot: Option<Spot>,
    notes: &str,
    status: Status,
    line: &[u8],
) -> Result<Answer, AllocError> {
    let bytes = text_of(file.bytes);
    let text = print_refusal(alloc, file.name, bytes, spot, notes, text_of(line))?;
    Ok(Answer::Refused {
        status,
        text,
        spot,
        html: None,
    })
}

/// Where tokens of a section are in the file.
fn spot_of_range(case: &Case<'_>, range: Range<'_>) -> Option<Spot> {
    let scanned = case.tokens(range.section)?;
    let word = heading_word(range.section).as_bytes();
    let mark = mark_of_token(case.sources.file, word, scanned, range.first, range.name)?;
    let first = scanned.list().get(range.first)?.start;
    let end = match scanned.list().get(range.last) {
        Some(last) => last.end,
        None => first,
    };
    Some(spot_at(case, mark, end.saturating_sub(first) as usize))
}

/// Where a byte of a section is in the file.
fn spot_of_byte(case: &Case<'_>, section: Section, byte: usize) -> Option<Spot> {
    let word = heading_word(section).as_bytes();
    let text = case.text(section).as_bytes();
    let mark = mark_of(case.sources.file, word, text, byte)?;
    let digits = text
        .iter()
        .skip(byte)
        .take_while(|b| b.is_ascii_digit())
        .count();
    Some(spot_at(case, mark, digits.max(1)))
}

/// Where so many bytes from a mark on are.
fn spot_at(case: &Case<'_>, mark: Mark, count: usize) -> Spot {
    Spot {
        line: mark.place.line,
        column: Some(mark.place.column),
        width: width_of(case.sources.file, mark.byte, count),
    }
}

fn text_of(bytes: &[u8]) -> &str {
    str::from_utf8(bytes).unwrap_or("")
}
