//! Trees that are read from the bytes of texts, beside those that are read from tokens, and texts
//! that one pass takes.

ghost use Rattle.std.specs.Prelude.{◌≡◌, IfOk, IfSome};

use crate::documents::greatest_number;
use ftl_boxes::sample_page;
use ftl_checked::Checked;
use ftl_document::{passed_nodes, read_document, read_plain_document};
use ftl_document_printing::print_document;
use ftl_tokens::document_tokens;
use std::alloc::{AllocError, Global};

/// The most bytes of a text.
const MOST_TEXT: usize = 67108864;

/// What a character of a text is changed to.
const OTHERS: [&str; 18] = [
    "",
    " ",
    "\n",
    "{",
    "}",
    "[",
    "]",
    "=",
    "==",
    "-",
    "#",
    "0",
    "9",
    "99999999999",
    "a",
    "_",
    "!",
    "é",
];

/// Writes the texts, of those that are this one in ASCII with a character left out, doubled or
/// another, whose tree is read otherwise from bytes than from tokens; then whether one pass takes
/// this one.
pub(crate) fn write_changed(
    alloc: Global,
    out: &mut String,
    checked: &Checked,
    text: &str,
) -> Result<(), AllocError> {
    for at in 0..text.len() {
        for other in OTHERS {
            write_if_otherwise(alloc, out, checked, &changed(alloc, text, at, other)?)?;
        }
        let twice = changed(alloc, text, at, text.get(at..at + 1).unwrap_or(""))?;
        write_if_otherwise(alloc, out, checked, &twice)?;
    }
    write_passed(alloc, out, checked, text)
}

/// The text with another text in place of the byte at `at`; behind that byte where it is the same.
fn changed(alloc: Global, text: &str, at: usize, other: &str) -> Result<String, AllocError> {
    let mut made = String::from_str(alloc, text.get(..at).unwrap_or(""))?;
    made.push_str(other)?;
    let behind = if text.get(at..).unwrap_or("").starts_with(other) && !other.is_empty() {
        at
    } else {
        at.saturating_add(1)
    };
    made.push_str(text.get(behind..).unwrap_or(""))?;
    Ok(made)
}

fn write_if_otherwise(
    alloc: Global,
    out: &mut String,
    checked: &Checked,
    text: &str,
) -> Result<(), AllocError> {
    let Some(by_bytes) = text_by_bytes(alloc, checked, text)? else {
        return Ok(());
    };
    let by_tokens = text_by_tokens(alloc, checked, text)?;
    if by_bytes.as_str() != by_tokens.as_str() {
        out.push_str("otherwise: ")?;
        out.push_str(text)?;
        out.push('\n')?;
    }
    Ok(())
}

/// The canonical text of the tree that is read from the bytes of a text; none where it isn't plain.
fn text_by_bytes(
    alloc: Global,
    checked: &Checked,
    text: &str,
) -> Result<Option<String>, AllocError> {
    if text.len() > MOST_TEXT {
        return Ok(None);
    }
    match read_plain_document(alloc, checked, text, greatest_number(checked.width()))? {
        Some(tree) => Ok(Some(print_document(alloc, &tree)?)),
        None => Ok(None),
    }
}

/// The same of the tree that is read from its tokens; nothing where it is refused.
fn text_by_tokens(alloc: Global, checked: &Checked, text: &str) -> Result<String, AllocError> {
    if text.len() > MOST_TEXT {
        return Ok(String::new(alloc));
    }
    let text = String::from_str(alloc, text)?;
    let Ok(scanned) = document_tokens(alloc, text, greatest_number(checked.width())) else {
        return Ok(String::new(alloc));
    };
    match read_document(alloc, checked, &scanned) {
        Ok(tree) => print_document(alloc, &tree),
        Err(_) => Ok(String::new(alloc)),
    }
}

/// Whether one pass takes the text.
pub(crate) fn is_passed(alloc: Global, checked: &Checked, text: &str) -> Result<bool, AllocError> {
    if text.len() > MOST_TEXT {
        return Ok(false);
    }
    Ok(passed_nodes(alloc, checked, text, greatest_number(checked.width()))?.is_some())
}

/// Writes whether one pass takes the text.
fn write_passed(
    alloc: Global,
    out: &mut String,
    checked: &Checked,
    text: &str,
) -> Result<(), AllocError> {
    if is_passed(alloc, checked, text)? {
        out.push_str("by one pass\n")
    } else {
        out.push_str("not by one pass\n")
    }
}

/// Writes whether one pass takes the document of a sample, whose grammar and pieces are told.
pub(crate) fn write_sample(
    alloc: Global,
    out: &mut String,
    checked: &Checked,
    words: &str,
) -> Result<(), AllocError> {
    let (grammar, pieces) = match words.split_once(' ') {
        Some((grammar, pieces)) => (grammar, pieces),
        None => (words, ""),
    };
    let Ok(page) = sample_page(alloc, pieces.parse::<u32>().unwrap_or(0), grammar) else {
        return out.push_str("no sample\n");
    };
    write_passed(alloc, out, checked, document_in(page.as_str()))
}

/// The document of a page that ends with it.
fn document_in(page: &str) -> &str {
    match page.split_once("%document\n") {
        Some((_before, document)) => document,
        None => "",
    }
}
