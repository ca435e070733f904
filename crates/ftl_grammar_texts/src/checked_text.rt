//! The grammar of a text.

ghost use Rattle.ftl_grammar.specs.reading.Readable.{CanBeRead};

use ftl_base::Width;
use ftl_checked::{Checked, check_grammar};
use ftl_grammar::{Grammar, read_grammar};
use ftl_tokens::{Scanned, tokens};
use std::alloc::{AllocError, Global};

/// The lawful grammar that the text spells, in this width; none where it spells none.
pub fn grammar_of_text(
    alloc: Global,
    text: &str,
    width: Width,
) -> Result<Option<Checked>, AllocError> {
    if text.len() > 67108864 {
        return Ok(None);
    }
    match tokens(alloc, String::from_str(alloc, text)?) {
        Ok(scanned) => Ok(grammar_of_tokens(alloc, &scanned, width)),
        Err(_fault) => Ok(None),
    }
}

/// The lawful grammar that the tokens spell.
fn grammar_of_tokens(alloc: Global, scanned: &Scanned, width: Width) -> Option<Checked> {
    match read_grammar(alloc, scanned) {
        Ok(grammar) => without_fault(alloc, grammar, width),
        Err(_fault) => None,
    }
}

/// The grammar, checked; none where it has a fault.
fn without_fault(alloc: Global, grammar: Grammar, width: Width) -> Option<Checked>
    requires readable { CanBeRead grammar }
{
    match check_grammar(alloc, grammar, width) {
        Ok(checked) => Some(checked),
        Err(_fault) => None,
    }
}
