//! Marks in a file.

ghost use Rattle.std.specs.Prelude.{IfSome};
ghost use Rattle.ftl_refusals.specs.marks.Marks.{IsMarkOf, IsMarkOfToken};

use crate::places::{Place, place_of, section_start};
use crate::tokens::says;
use ftl_tokens::TokenizedText;

/// A mark in a file: the byte that a refusal means, and its place.
#[derive(Clone, Copy)]
pub struct Mark {
    pub byte: usize,
    pub place: Place,
}

/// The mark at a byte of the text of a section, which stands in the file below a heading of this
/// word. None where it does not stand there, as of a grammar that comes with the program, and for a
/// byte behind the text.
pub fn mark_of(file: &[u8], word: &[u8], text: &[u8], byte: usize) -> Option<Mark>
    ensures mark { IfSome result (IsMarkOf file.now word.now text.now byte) }
{
    let start = section_start(file, word, text)?;
    let end = start.checked_add(text.len())?;
    let byte = start.checked_add(byte)?;
    if byte > end || byte > file.len() {
        return None;
    }
    Some(Mark {
        byte,
        place: place_of(file, byte),
    })
}

/// The mark at token `k` of a section's text, where that says the name. None as of `mark_of`, and
/// where it says something else.
pub fn mark_of_token(
    file: &[u8],
    word: &[u8],
    scanned: &TokenizedText,
    k: usize,
    name: &str,
) -> Option<Mark>
    ensures mark { IfSome result (IsMarkOfToken file.now word.now scanned.now k name.now) }
{
    let token = scanned.list().get(k)?;
    if !says(scanned, k, name) {
        return None;
    }
    let mark = mark_of(file, word, scanned.text().as_bytes(), token.start as usize)?;
    Some(mark)
}

/// How many characters of their line begin in so many bytes of a file, and at least 1.
pub fn width_of(file: &[u8], start: usize, count: usize) -> usize {
    let mut width: usize = 0;
    for b in file.iter().skip(start).take(count) {
        if *b == b'\n' {
            return width.max(1);
        }
        if *b < 128 || *b > 191 {
            width = width.saturating_add(1);
        }
    }
    width.max(1)
}
