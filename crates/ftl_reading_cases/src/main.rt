//! Prints what the cursors over tokens answer to requests on texts. Each case on standard input
//! begins by a line with `%`, the word `narrow` or `wide`, and a title; the next line is the text,
//! in which `/` stands for a line feed, and the others are requests:
//!
//! - `root`, `semicolon`, `paren`, `name`, `number`, `positive`: takes what is named, or is
//!   refused;
//! - `is NAME`: takes the name, if it comes next; `skip`: takes what comes next;
//! - `peek`, `left`, `end`: what comes next, how much is left, and whether all was taken;
//! - `place N`: the byte at which the token stands that has so many behind it, itself among them;
//! - `deep N`: the byte at which more than N brackets are open first.
#![tactic(auto)]

ghost use Rattle.std.specs.Prelude.{◌≤◌, string_len};
ghost use Rattle.ftl_model.specs.layout.Limits.{most_page_bytes};

mod cursor;
mod requests;

use cursor::Cursor;
use ftl_edge::{StdSource, read_all};
use ftl_tokens::{Input as TextInput, WideInput, document_tokens, tokens};
use requests::write_answers;
use std::alloc::{AllocError, Global};
use std::io;

/// The most bytes of all cases.
const MAX_TEXT: usize = 1048576;

/// What stands on standard input; none where that is no text.
fn read_text(rt: &impl Input, alloc: Global) -> Option<String> {
    let mut source = StdSource::new(rt);
    let bytes = read_all(alloc, &mut source, MAX_TEXT).ok()?;
    String::from_utf8(bytes).ok()
}

/// The text with line feeds in the place of `/`.
fn with_lines(alloc: Global, text: &str) -> Result<String, AllocError> {
    let mut lines = String::new(alloc);
    for piece in text.chars() {
        lines.push(if piece == '/' { '\n' } else { piece })?;
    }
    Ok(lines)
}

fn narrow(alloc: Global, text: String, requests: &str) -> Result<String, AllocError>
    requires short { string_len text ≤ most_page_bytes }
{
    let mut out = String::new(alloc);
    match tokens(alloc, text) {
        Ok(scanned) => {
            let cursor = Cursor::Narrow(TextInput::new(&scanned));
            write_answers(&mut out, scanned.tokenized(), cursor, requests)?;
        }
        Err(_) => out.push_str("no tokens\n")?,
    }
    Ok(out)
}

fn wide(alloc: Global, text: String, requests: &str) -> Result<String, AllocError>
    requires short { string_len text ≤ most_page_bytes }
{
    let mut out = String::new(alloc);
    match document_tokens(alloc, text, 140737488355327) {
        Ok(scanned) => {
            let cursor = Cursor::Wide(WideInput::new(&scanned));
            write_answers(&mut out, scanned.tokenized(), cursor, requests)?;
        }
        Err(_) => out.push_str("no tokens\n")?,
    }
    Ok(out)
}

/// The answers of a case.
fn answers(alloc: Global, title: &str, body: &str) -> Result<String, AllocError> {
    let (line, requests) = body.split_once('\n').unwrap_or((body, ""));
    let text = with_lines(alloc, line)?;
    if text.len() > 67108864 {
        return String::from_str(alloc, "too long\n");
    }
    if title.starts_with("wide") {
        wide(alloc, text, requests)
    } else {
        narrow(alloc, text, requests)
    }
}

fn main(rt: HostRuntime) -> io::Result<()> {
    let Some(text) = read_text(&rt, rt.alloc()) else {
        println!(rt; "no text")?;
        return Ok(());
    };
    for case in text.as_str().split('%').skip(1) {
        let (title, body) = case.split_once('\n').unwrap_or((case, ""));
        println!(rt; "%{title}")?;
        print!(rt; "{}", answers(rt.alloc(), title.trim(), body)?)?;
    }
    Ok(())
}
