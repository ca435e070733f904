//! Cases: what is wanted, a title, and what stands below.

use crate::answers::{Wanted, wanted_by, write_answers};
use crate::documents::way::way_of;
use crate::places::write_places;
use crate::syntax::rows::write_rows;
use ftl_boxes::shipped;
use std::alloc::{AllocError, Global};

/// The cases, each with its first line.
pub(crate) fn write_cases(alloc: Global, out: &mut String, text: &str) -> Result<(), AllocError> {
    for case in text.split('%').skip(1) {
        let (title, body) = parted(case, "\n");
        out.push('%')?;
        out.push_str(title)?;
        out.push('\n')?;
        write_case(out, alloc, title.trim(), body)?;
    }
    Ok(())
}

fn write_case(out: &mut String, alloc: Global, title: &str, body: &str) -> Result<(), AllocError> {
    let (verb, title) = parted(title, " ");
    match verb {
        "places" => write_places(out),
        "syntax" => write_rows(alloc, out, body),
        "document" => write_of_document(out, alloc, title, body),
        _ => write_of_grammar(out, alloc, wanted_by(verb), title, body),
    }
}

/// What is wanted of a shipped grammar, where the title names one, or of the text below.
fn write_of_grammar(
    out: &mut String,
    alloc: Global,
    wanted: Wanted,
    title: &str,
    body: &str,
) -> Result<(), AllocError> {
    if let Some(name) = title.strip_prefix("grammar ") {
        return write_answers(out, alloc, wanted, shipped(name).unwrap_or(""), body);
    }
    let (text, requests) = parted(body, "\n\n");
    write_answers(out, alloc, wanted, text, requests)
}

/// What is wanted of a document. Its title begins with the name of a shipped grammar, or with
/// `own`, where the grammar's text stands before `==`; then may stand the way in which it asks.
fn write_of_document(
    out: &mut String,
    alloc: Global,
    title: &str,
    body: &str,
) -> Result<(), AllocError> {
    let (name, rest) = parted(title, " ");
    let (word, _title) = parted(rest, " ");
    let wanted = Wanted::Document(way_of(word));
    if name != "own" {
        return write_answers(out, alloc, wanted, shipped(name).unwrap_or(""), body);
    }
    let (text, document) = parted(body, "==");
    write_answers(out, alloc, wanted, text, document)
}

/// What stands before the mark, and what stands behind it; all and nothing where there is none.
fn parted<'a>(text: &'a str, mark: &str) -> (&'a str, &'a str) {
    text.split_once(mark).unwrap_or((text, ""))
}
