//! Where a text goes wrong before it means anything.

use crate::reasons::case::Case;
use crate::reasons::expected::expected_after;
use crate::reasons::lines::told_by;
use crate::reasons::phrases::push_expected;
use crate::reasons::reason::Reason;
use crate::reasons::slips::{Around, Slip, slip_of, tokens_around};
use crate::tokens::word_at;
use ftl_page::Section;
use ftl_tokens::TokenizedText;
use std::alloc::{AllocError, Global};
use std::fmt::Write;

/// Why a text is refused at a byte.
pub fn syntax_reason<'l>(
    alloc: Global,
    case: &Case<'l>,
    section: Section,
    byte: usize,
    line: &'l str,
) -> Result<Reason<'l>, AllocError> {
    let told = told_by(line);
    let text = case.text(section);
    if told.starts_with("bad character") {
        return Reason::silent(alloc).with(character_note(section, text, byte));
    }
    if told.starts_with("number too large") {
        return large_number(alloc, case, section);
    }
    match case.tokens(section) {
        Some(scanned) if told.starts_with("too deep") => {
            let token = token_from(scanned, byte);
            let reason = Reason::at(alloc, section, Some(token), word_at(scanned, token));
            reason.with(deep_note(section))
        }
        Some(scanned) => stopped(alloc, case, section, scanned, byte),
        None => Ok(Reason::silent(alloc)),
    }
}

/// The first token that begins at the byte or behind it; the count of tokens where there is none.
fn token_from(scanned: &TokenizedText, byte: usize) -> usize {
    for (k, token) in scanned.list().iter().enumerate() {
        if token.start as usize >= byte {
            return k;
        }
    }
    scanned.list().len()
}

/// Why the syntax goes wrong at a byte.
fn stopped<'l>(
    alloc: Global,
    case: &Case<'l>,
    section: Section,
    scanned: &'l TokenizedText,
    byte: usize,
) -> Result<Reason<'l>, AllocError> {
    let token = token_from(scanned, byte);
    let front = case.text(section).get(..byte).unwrap_or("");
    let expected = expected_after(alloc, section, front, case.sources.wide)?;
    let word = word_at(scanned, token);
    let at = if token < scanned.list().len() {
        Some(token)
    } else {
        None
    };
    let Reason { range, notes } = Reason::at(alloc, section, at, word);
    let mut notes = notes;
    push_expected(alloc, &mut notes, expected.as_slice())?;
    let around = tokens_around(scanned, token, expected.as_slice());
    push_slip(&mut notes, case, section, &around)?;
    Ok(Reason { range, notes })
}

/// Appends the slip that was made, if it is a known one.
fn push_slip(
    out: &mut String,
    case: &Case<'_>,
    section: Section,
    around: &Around<'_>,
) -> Result<(), AllocError> {
    match slip_of(section, around) {
        Some(Slip::Known(note)) => {
            out.push_str("hint: ")?;
            out.push_str(note)?;
            out.push_str("\n")
        }
        Some(Slip::Missing(mark)) => {
            write!(out, "hint: a `{mark}` seems to be missing behind")?;
            out.push_str(" `")?;
            out.push_str(around.before)?;
            out.push_str("`")?;
            case.push_at(out, section, around.token.saturating_sub(1))?;
            out.push_str("\n")
        }
        None => Ok(()),
    }
}

fn large_number<'l>(
    alloc: Global,
    case: &Case<'l>,
    section: Section,
) -> Result<Reason<'l>, AllocError> {
    let silent = Reason::silent(alloc);
    match section {
        Section::Document if case.sources.wide => {
            silent.with("expected a number up to 140737488355327")
        }
        Section::Document => {
            let told = silent.with("expected a number up to 2147483647")?;
            told.with("hint: in a `%page 2` numbers of documents go up to 140737488355327")
        }
        _ => silent.with("expected a number up to 2147483647"),
    }
}

fn deep_note(section: Section) -> &'static str {
    match section {
        Section::Document => "expected at most 512 levels of nodes",
        _ => "expected at most 64 `(` and `[` that are open",
    }
}

/// What is meant by a character that no word and no mark has.
fn character_note(section: Section, text: &str, byte: usize) -> &'static str {
    let rest = text.get(byte..).unwrap_or("");
    match rest.chars().next() {
        Some('"' | '\'' | '`' | '“' | '”') => {
            "hint: there are no texts: give the width and the height of a text as numbers"
        }
        Some('&' | '|') if section == Section::Schedule => {
            "hint: passes beside each other are joined by `||`"
        }
        Some('&') => "hint: conditions are joined by `&&`",
        Some('|') => "hint: conditions are joined by `||`",
        Some('%') => { "hint: there is no remainder; headings begin their line" }
        Some('?') => "hint: a choice is written `if .. then .. else ..`",
        Some('^') => "hint: there are no powers: `self.a * self.a`",
        _ => "hint: no word and no mark has this character",
    }
}
