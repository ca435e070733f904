//! Grammar texts, from their tokens.

ghost use Rattle.std.specs.Prelude.{IfOk};
ghost use Rattle.ftl_grammar.specs.declared.syntax.rules.Grammar as grammars;
ghost use Rattle.ftl_grammar.specs.reading.Read.{IsGrammar, ReadsGrammar};
ghost use Rattle.ftl_grammar.specs.reading.Readable.{CanBeRead};

use crate::reading::declarations::grammar;
use crate::reading::fault::SyntaxFault;
use crate::syntax::Grammar;
use ftl_tokens::{Input, Kind, ReadFault, Scanned, first_too_deep, place};
use std::alloc::Global;

const OPENING: [Kind; 2] = [Kind::LeftParen, Kind::LeftBracket];

const CLOSING: [Kind; 2] = [Kind::RightParen, Kind::RightBracket];
/// How many brackets may be open at once.
const LIMIT: usize = 64;

/// The grammar that the tokens of a text spell, or the place at which they go wrong. Whether the
/// brackets are too deep is looked at before the syntax.
pub fn read_grammar(alloc: Global, scanned: &Scanned) -> Result<Grammar, SyntaxFault>
    ensures answer { ReadsGrammar scanned.now result }
    // what the check of a grammar and its canonical text ask for
    ensures readable { IfOk result (λ g. CanBeRead g) }
{
    read_is_readable(scanned);
    if let Some(at) = first_too_deep(scanned, &OPENING, &CLOSING, LIMIT) {
        return Err(SyntaxFault::TooDeep { at });
    }
    let mut input = Input::new(scanned);
    match grammar(alloc, &mut input) {
        Ok(grammar) => Ok(grammar),
        Err(ReadFault::Refused) => Err(SyntaxFault::Syntax {
            at: place(scanned, input.left()),
        }),
        Err(ReadFault::OutOfMemory) => Err(SyntaxFault::OutOfMemory),
    }
}

/// Says of a text with its tokens that a grammar which they spell can be read.
fn read_is_readable(scanned: &Scanned)
    ensures readable { (g : grammars.Grammar) → IsGrammar scanned.now g → CanBeRead g }
{
    let _text = scanned.text();
    let _tokens = scanned.list();
    let _end = place(scanned, 0);
}
