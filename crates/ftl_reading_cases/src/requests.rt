//! Requests on a text, and their answers.
use crate::cursor::Cursor;
use ftl_tokens::{Kind, ReadFault, TokenizedText, first_too_deep_in, place_in};
use std::alloc::AllocError;
use std::fmt::Write;

/// Writes the answers to requests, a line each.
pub(crate) fn write_answers(
    out: &mut String,
    text: &TokenizedText,
    mut cursor: Cursor<'_>,
    requests: &str,
) -> Result<(), AllocError> {
    for request in requests.lines() {
        let (verb, rest) = request.split_once(' ').unwrap_or((request, ""));
        match verb {
            "place" => write_number(out, u64::from(place_in(text, count(rest))))?,
            "deep" => write_place(out, too_deep(text, count(rest)))?,
            _ => write_taken(out, &mut cursor, verb, rest)?,
        }
    }
    Ok(())
}

/// What a request says that there is so many of; 0 where it says nothing.
fn count(word: &str) -> usize {
    word.parse::<u32>().unwrap_or(0) as usize
}

/// Where more brackets are open than this, round and square ones together.
fn too_deep(text: &TokenizedText, limit: usize) -> Option<u32> {
    let opening = [Kind::LeftParen, Kind::LeftBracket];
    let closing = [Kind::RightParen, Kind::RightBracket];
    first_too_deep_in(text, &opening, &closing, limit)
}

/// Writes what comes of a step of the cursor.
fn write_taken(
    out: &mut String,
    cursor: &mut Cursor<'_>,
    verb: &str,
    rest: &str,
) -> Result<(), AllocError> {
    match verb {
        "left" => write_number(out, cursor.left() as u64),
        "peek" => out.push_str(kind_word(cursor.peek())),
        "skip" => {
            cursor.skip();
            out.push_str("skipped\n")
        }
        "root" => out.push_str(done(cursor.root())),
        "semicolon" => out.push_str(done(cursor.semicolon())),
        "paren" => out.push_str(done(cursor.paren())),
        "end" => out.push_str(done(cursor.end())),
        "is" => out.push_str(if cursor.take_name_of(rest) {
            "yes\n"
        } else {
            "no\n"
        }),
        "name" => write_name(out, cursor.name()),
        "number" => write_read(out, cursor.number()),
        "positive" => write_read(out, cursor.positive()),
        _ => out.push_str("no request\n"),
    }
}

fn kind_word(kind: Option<Kind>) -> &'static str {
    match kind {
        None => "none\n",
        Some(Kind::Name) => "a name\n",
        Some(Kind::Number) => "a number\n",
        Some(_) => "a word or mark\n",
    }
}

fn done(taken: Result<(), ReadFault>) -> &'static str {
    match taken {
        Ok(()) => "ok\n",
        Err(_) => "refused\n",
    }
}

fn write_name(out: &mut String, name: Result<&str, ReadFault>) -> Result<(), AllocError> {
    match name {
        Ok(name) => writeln!(out, "{name}"),
        Err(_) => out.push_str("refused\n"),
    }
}

fn write_read(out: &mut String, number: Result<u64, ReadFault>) -> Result<(), AllocError> {
    match number {
        Ok(number) => write_number(out, number),
        Err(_) => out.push_str("refused\n"),
    }
}

fn write_place(out: &mut String, place: Option<u32>) -> Result<(), AllocError> {
    match place {
        Some(place) => write_number(out, u64::from(place)),
        None => out.push_str("none\n"),
    }
}

fn write_number(out: &mut String, number: u64) -> Result<(), AllocError> {
    writeln!(out, "{number}")
}
