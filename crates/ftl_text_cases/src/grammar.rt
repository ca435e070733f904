//! Grammars, read and printed.

use ftl_grammar::{SyntaxFault, print_grammar, read_grammar};
use ftl_tokens::{Scanned, tokens};
use std::alloc::{AllocError, Global};

/// The most bytes of a text.
const MOST_TEXT: usize = 67108864;

/// Writes the canonical text of the grammar that the tokens spell, below the line.
pub(crate) fn write_grammar(
    alloc: Global,
    out: &mut String,
    scanned: &Scanned,
) -> Result<(), AllocError> {
    let canonical = printed(alloc, scanned)?;
    out.push('\n')?;
    out.push_str(canonical.as_str())
}

/// Writes whether the canonical text of the grammar is read back and printed as itself.
pub(crate) fn write_again(
    alloc: Global,
    out: &mut String,
    scanned: &Scanned,
) -> Result<(), AllocError> {
    let once = printed(alloc, scanned)?;
    let twice = printed_text(alloc, once.as_str())?;
    out.push_str(compared(once.as_str(), twice.as_str()))
}

fn compared(once: &str, twice: &str) -> &'static str {
    if once == "none" {
        " none"
    } else if twice == once {
        " the same"
    } else {
        " another text"
    }
}

/// The canonical text of the grammar that the tokens spell, or `none` where they spell none.
fn printed(alloc: Global, scanned: &Scanned) -> Result<String, AllocError> {
    match read_grammar(alloc, scanned) {
        Ok(grammar) => print_grammar(alloc, &grammar),
        Err(SyntaxFault::OutOfMemory) => Err(AllocError),
        Err(_) => String::from_str(alloc, "none"),
    }
}

/// The same of a text.
fn printed_text(alloc: Global, text: &str) -> Result<String, AllocError> {
    if text.len() > MOST_TEXT {
        return String::from_str(alloc, "none");
    }
    match tokens(alloc, String::from_str(alloc, text)?) {
        Ok(scanned) => printed(alloc, &scanned),
        Err(_) => String::from_str(alloc, "none"),
    }
}
