//! Which tokens a reader could have taken: those with which a text that it read so far goes on.

use crate::tokens::{scanned_document, scanned_text};
use ftl_document::read_written_document;
use ftl_document::syntax::WrittenDocumentFault;
use ftl_grammar::{SyntaxFault, read_grammar};
use ftl_nest_text::syntax::read_nesting_schedule;
use ftl_page::Section;
use ftl_schedule::syntax::WrittenFault;
use std::alloc::{AllocError, Global};

/// What a text may go on with is tried by these; `x` stands for any name, `1` for any number.
const OF_GRAMMAR: [&str; 50] = [
    "root",
    "interface",
    "class",
    "inh",
    "syn",
    "input",
    "local",
    "show",
    "x",
    "self",
    "this",
    "prev",
    "1",
    "acc",
    "last",
    "min",
    "max",
    "(",
    "-",
    "if",
    "first",
    "fold",
    "from",
    "with",
    "then",
    "else",
    "or",
    "[",
    "]",
    "!",
    ")",
    "{",
    "}",
    ",",
    ".",
    ":",
    ":=",
    "=",
    ";",
    "+",
    "*",
    "/",
    "<",
    "<=",
    ">",
    ">=",
    "==",
    "!=",
    "&&",
    "||",
];

const OF_SCHEDULE: [&str; 10] = [
    "topdown", "bottomup", "inorder", "nest", "x", ".", "{", "}", "||", ";",
];

const OF_DOCUMENT: [&str; 8] = ["x", "1", "-", "=", "{", "[", "]", "}"];

/// What an empty word stands for: that nothing follows.
pub const END: &str = "";

fn candidates(section: Section) -> &'static [&'static str] {
    match section {
        Section::Grammar => &OF_GRAMMAR,
        Section::Schedule => &OF_SCHEDULE,
        Section::Document => &OF_DOCUMENT,
        Section::Edits => &[],
    }
}

/// The words with which the front of a text could have gone on, and `END` where it could end.
pub fn expected_after(
    alloc: Global,
    section: Section,
    front: &str,
    wide: bool,
) -> Result<Vec<&'static str>, AllocError> {
    let mut found = Vec::new(alloc);
    for word in candidates(section) {
        if goes_on(alloc, section, front, *word, wide)? {
            found.push(*word)?;
        }
    }
    if goes_on(alloc, section, front, END, wide)? {
        found.push(END)?;
    }
    Ok(found)
}

/// Whether the front of a text could have gone on with the word, or could end for none.
fn goes_on(
    alloc: Global,
    section: Section,
    front: &str,
    word: &str,
    wide: bool,
) -> Result<bool, AllocError> {
    let mut text = String::from_str(alloc, front)?;
    text.push_str("\n")?;
    let start = text.len();
    text.push_str(word)?;
    match read(alloc, section, text.as_str(), wide)? {
        Reading::Whole => Ok(true),
        Reading::Stops(at) => Ok(word != END && at as usize != start),
        Reading::Refused => Ok(false),
    }
}

/// How far a text is read.
enum Reading {
    /// It follows the syntax.
    Whole,
    /// The syntax goes wrong at this byte.
    Stops(u32),
    /// It is refused for something else.
    Refused,
}

fn read(alloc: Global, section: Section, text: &str, wide: bool) -> Result<Reading, AllocError> {
    match section {
        Section::Grammar => read_as_grammar(alloc, text),
        Section::Schedule => read_as_schedule(alloc, text),
        Section::Document => read_as_document(alloc, text, wide),
        Section::Edits => Ok(Reading::Refused),
    }
}

fn read_as_grammar(alloc: Global, text: &str) -> Result<Reading, AllocError> {
    let Some(scanned) = scanned_text(alloc, text)? else {
        return Ok(Reading::Refused);
    };
    match read_grammar(alloc, &scanned) {
        Ok(_) => Ok(Reading::Whole),
        Err(SyntaxFault::Syntax { at }) => Ok(Reading::Stops(at)),
        Err(SyntaxFault::TooDeep { at: _ }) => Ok(Reading::Refused),
        Err(SyntaxFault::OutOfMemory) => Err(AllocError),
    }
}

fn read_as_schedule(alloc: Global, text: &str) -> Result<Reading, AllocError> {
    let Some(scanned) = scanned_text(alloc, text)? else {
        return Ok(Reading::Refused);
    };
    match read_nesting_schedule(alloc, &scanned) {
        Ok(_) => Ok(Reading::Whole),
        Err(WrittenFault::Syntax { at }) => Ok(Reading::Stops(at)),
        Err(WrittenFault::OutOfMemory) => Err(AllocError),
    }
}

fn read_as_document(alloc: Global, text: &str, wide: bool) -> Result<Reading, AllocError> {
    let Some(scanned) = scanned_document(alloc, text, wide)? else {
        return Ok(Reading::Refused);
    };
    match read_written_document(alloc, &scanned) {
        Ok(_) => Ok(Reading::Whole),
        Err(WrittenDocumentFault::Syntax { at }) => Ok(Reading::Stops(at)),
        Err(WrittenDocumentFault::OutOfMemory) => Err(AllocError),
        Err(_) => Ok(Reading::Refused),
    }
}
