//! Documents that are read from the bytes of their texts, beside those that are read from tokens.

ghost use Rattle.ftl_tokens.specs.scanner.Tokenized.{IsGreatestNumber};

use crate::document::write_rows;
use ftl_boxes::sample_page;
use ftl_document::{read_written_document, rows_of_text};
use ftl_tokens::document_tokens;
use std::alloc::{AllocError, Global};

/// The most bytes of a text.
const MOST_TEXT: usize = 67108864;

/// What a byte of a text is changed to.
const OTHERS: [&str; 16] = [
    "", " ", "\n", "{", "}", "[", "]", "=", "-", "#", "0", "9", "a", "_", "!", "é",
];

/// Writes the document that is read from the bytes of a text.
pub(crate) fn write_plain(
    alloc: Global,
    out: &mut String,
    text: &str,
    greatest: u64,
) -> Result<(), AllocError>
    requires limit { IsGreatestNumber greatest }
{
    if text.len() > MOST_TEXT {
        return Ok(());
    }
    match rows_of_text(alloc, text, greatest)? {
        Some(document) => write_rows(out, &document),
        None => out.push_str(" none"),
    }
}

/// Writes the document that is read from the tokens of a text, as `write_plain` writes it.
fn write_scanned(
    alloc: Global,
    out: &mut String,
    text: &str,
    greatest: u64,
) -> Result<(), AllocError>
    requires limit { IsGreatestNumber greatest }
{
    if text.len() > MOST_TEXT {
        return Ok(());
    }
    let Ok(scanned) = document_tokens(alloc, String::from_str(alloc, text)?, greatest) else {
        return out.push_str(" none");
    };
    match read_written_document(alloc, &scanned) {
        Ok(document) => write_rows(out, &document),
        Err(_) => out.push_str(" none"),
    }
}

/// Writes the first text whose document is read otherwise from bytes than from tokens, of those in
/// which a character is left out, doubled or another; where it isn't ASCII, none may be read.
pub(crate) fn write_changed(
    alloc: Global,
    out: &mut String,
    text: &str,
    greatest: u64,
) -> Result<(), AllocError>
    requires limit { IsGreatestNumber greatest }
{
    for (at, c) in text.chars().enumerate() {
        for other in OTHERS {
            write_if_otherwise(alloc, out, &changed(alloc, text, at, other)?, greatest)?;
        }
        let mut twice = String::new(alloc);
        twice.push(c)?;
        twice.push(c)?;
        write_if_otherwise(alloc, out, &changed(alloc, text, at, &twice)?, greatest)?;
    }
    out.push_str(" done")
}

/// The text with another text in place of the character at `at`.
fn changed(alloc: Global, text: &str, at: usize, other: &str) -> Result<String, AllocError> {
    let mut made = String::new(alloc);
    for (place, c) in text.chars().enumerate() {
        if place == at {
            made.push_str(other)?;
        } else {
            made.push(c)?;
        }
    }
    Ok(made)
}

fn write_if_otherwise(
    alloc: Global,
    out: &mut String,
    text: &str,
    greatest: u64,
) -> Result<(), AllocError>
    requires limit { IsGreatestNumber greatest }
{
    let mut plain = String::new(alloc);
    write_plain(alloc, &mut plain, text, greatest)?;
    let mut scanned = String::new(alloc);
    write_scanned(alloc, &mut scanned, text, greatest)?;
    if plain.as_str() == scanned.as_str() {
        return Ok(());
    }
    if !text.is_ascii() && plain.as_str() == " none" {
        return Ok(());
    }
    out.push_str(" otherwise: ")?;
    out.push_str(text)
}

/// Writes whether the document of a sample of so many pieces is read from its bytes.
pub(crate) fn write_sample(alloc: Global, out: &mut String, words: &str) -> Result<(), AllocError> {
    let (grammar, pieces) = match words.split_once(' ') {
        Some((grammar, pieces)) => (grammar, pieces),
        None => (words, ""),
    };
    let Ok(page) = sample_page(alloc, pieces.parse::<u32>().unwrap_or(0), grammar) else {
        return out.push_str(" no sample");
    };
    let document = match page.as_str().split_once("%document\n") {
        Some((_before, document)) => document,
        None => "",
    };
    if document.len() > MOST_TEXT {
        return Ok(());
    }
    match rows_of_text(alloc, document, 2147483647)? {
        Some(_) => out.push_str(" plain"),
        None => out.push_str(" none"),
    }
}
