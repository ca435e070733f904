//! Cases, a line each. The first word says what is asked, and the rest is a text, as `src/line.rt`
//! says:
//!
//! - `kinds`: the kinds of its tokens
//! - `places`: its tokens with their places
//! - `numbers`: the numbers among its tokens
//! - `limited`: the number at which those of a document end, and the numbers among its tokens
//! - `document`: the class and the rows of the document that it is
//! - `wide-limited` and `wide-document`: the same where numbers end at 140737488355327
//! - `plain`: the same where it is read from the bytes of the text
//! - `changed`: the texts, of those that are this one with a character left out, doubled or
//!   another, that are read from their bytes otherwise than from their tokens
//! - `sample`: whether the document of a sample of a grammar with so many pieces is read from bytes
//! - `grammar`: the canonical text of the grammar that it spells
//! - `shipped`: the canonical text of the shipped grammar of this name
//! - `again`: whether that text is itself canonical
//! - `names`: of two names the first, and whether it is equal to its copy and to the second
//! - `gaps`: tokens that are written with and without white space between
//!
//! Each line is printed, and below it the answer behind `->`. A fault stands in its place.

use crate::document::write_document;
use crate::grammar::{write_again, write_grammar};
use crate::line::text_of;
use crate::plain::{write_changed, write_plain, write_sample};
use crate::tokens::{
    greatest, write_gaps, write_kinds, write_limited, write_names, write_numbers, write_places,
};
use ftl_boxes::shipped;
use ftl_tokens::{Scanned, WideScanned, document_tokens, tokens};
use std::alloc::{AllocError, Global};
use std::fmt::Write;

/// The most bytes of a text.
const MOST_TEXT: usize = 67108864;

/// Writes the lines, each with its answer.
pub(crate) fn write_cases(alloc: Global, out: &mut String, lines: &str) -> Result<(), AllocError> {
    for line in lines.lines() {
        write_case(alloc, out, line)?;
    }
    Ok(())
}

fn write_case(alloc: Global, out: &mut String, line: &str) -> Result<(), AllocError> {
    out.push_str(line)?;
    out.push_str("\n->")?;
    write_answer(alloc, out, line)?;
    out.push('\n')
}

fn write_answer(alloc: Global, out: &mut String, line: &str) -> Result<(), AllocError> {
    let (question, text) = line.split_once(' ').unwrap_or((line, ""));
    match question {
        "gaps" => write_gaps(alloc, out),
        "sample" => write_sample(alloc, out, text),
        "plain" | "wide-plain" => {
            write_plain(alloc, out, &text_of(alloc, text)?, greatest(question))
        }
        "changed" => write_changed(alloc, out, &text_of(alloc, text)?, 2147483647),
        "names" => write_names(alloc, out, text),
        "shipped" | "again" => write_of_text(alloc, out, question, shipped(text).unwrap_or("")),
        "limited" | "document" | "wide-limited" | "wide-document" => {
            write_of_document(alloc, out, question, text)
        }
        _ => write_of_text(alloc, out, question, text),
    }
}

/// Writes what is asked of a text that is scanned as a grammar.
fn write_of_text(
    alloc: Global,
    out: &mut String,
    question: &str,
    line: &str,
) -> Result<(), AllocError> {
    let text = text_of(alloc, line)?;
    if text.len() > MOST_TEXT {
        return Ok(());
    }
    match tokens(alloc, text) {
        Ok(scanned) => write_of_tokens(alloc, out, question, &scanned),
        Err(fault) => write!(out, " {fault:?}"),
    }
}

fn write_of_tokens(
    alloc: Global,
    out: &mut String,
    question: &str,
    scanned: &Scanned,
) -> Result<(), AllocError> {
    match question {
        "kinds" => write_kinds(out, scanned),
        "places" => write_places(out, scanned),
        "numbers" => write_numbers(out, scanned),
        "again" => write_again(alloc, out, scanned),
        _ => write_grammar(alloc, out, scanned),
    }
}

/// Writes what is asked of a text that is scanned as a document.
fn write_of_document(
    alloc: Global,
    out: &mut String,
    question: &str,
    line: &str,
) -> Result<(), AllocError> {
    let text = text_of(alloc, line)?;
    if text.len() > MOST_TEXT {
        return Ok(());
    }
    match document_tokens(alloc, text, greatest(question)) {
        Ok(scanned) => write_of_wide_tokens(alloc, out, question, &scanned),
        Err(fault) => write!(out, " {fault:?}"),
    }
}

fn write_of_wide_tokens(
    alloc: Global,
    out: &mut String,
    question: &str,
    scanned: &WideScanned,
) -> Result<(), AllocError> {
    if question.ends_with("document") {
        write_document(alloc, out, scanned)
    } else {
        write_limited(out, scanned)
    }
}
