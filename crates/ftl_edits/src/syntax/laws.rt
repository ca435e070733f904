//! Laws of the syntax.

ghost use Rattle.std.specs.Prelude.{◌≡◌, ℕ, List};
ghost use Rattle.ftl_tokens.specs.scanner.Tokenized.{Tokenized};
ghost use Rattle.ftl_tokens.specs.reading.Reader.{Tokens};
ghost use Rattle.ftl_tokens.specs.reading.Place.{IsFaultPlace};
ghost use Rattle.ftl_edits.specs.syntax.Spelling.{SpellsEdits};
ghost use Rattle.ftl_edits.specs.declared.syntax.written.WrittenEdit.{WrittenEdit};

/// A law: no tokens spell two lists of edits.
pub fn one_written_list()
    ensures same { (tokens : Tokens) (edits other : List WrittenEdit)
        → SpellsEdits tokens edits → SpellsEdits tokens other → edits ≡ other }
{}

/// A law: the tokens of a text go wrong at one byte at most.
pub fn one_place()
    ensures same { (scanned : Tokenized) (at other : ℕ) → IsFaultPlace SpellsEdits scanned at
        → IsFaultPlace SpellsEdits scanned other → at ≡ other }
{}
