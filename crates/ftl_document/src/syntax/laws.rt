//! Laws of the syntax.

ghost use Rattle.std.specs.Prelude.{◌≡◌, ◌≢◌, ◌≤◌, ℕ, length, Result, Err};
ghost use Rattle.ftl_tokens.specs.scanner.Tokenized.{Tokenized, WideTokenized, symbols_of};
ghost use Rattle.ftl_tokens.specs.reading.Reader.{Tokens, AreAtMost};
ghost use Rattle.ftl_tokens.specs.reading.Place.{IsFaultPlace};
ghost use Rattle.ftl_document.specs.syntax.Written.{WrittenNode};
ghost use Rattle.ftl_document.specs.syntax.Spelling.{SpellsNode};
ghost use Rattle.ftl_document.specs.syntax.Rows.{DocumentRows};
ghost use Rattle.ftl_document.specs.syntax.Read.{Fault, ReadsDocument, out_of_memory};

/// A law: no tokens spell two documents.
pub fn one_written_document()
    ensures same { (tokens : Tokens) (d e : WrittenNode)
        → SpellsNode tokens d → SpellsNode tokens e → d ≡ e }
{}

/// A law: the tokens of a text go wrong at one byte at most.
pub fn one_place()
    ensures same { (scanned : Tokenized) (at other : ℕ) → IsFaultPlace SpellsNode scanned at
        → IsFaultPlace SpellsNode scanned other → at ≡ other }
{}

/// A law: each text has one answer, want of memory aside. Its tokens are as many as 32 bits count,
/// and no number of theirs is above its greatest, as in each text that was scanned.
pub fn one_answer()
    ensures some { (s : WideTokenized) → length s.tokenized.tokens ≤ 4294967295
        → AreAtMost s.greatest (symbols_of s.tokenized)
        → (answer : Result DocumentRows Fault)
        × (answer ≢ Err out_of_memory) × ReadsDocument s answer }
    ensures any_two { (s : WideTokenized) (answer other : Result DocumentRows Fault)
        → answer ≢ Err out_of_memory → other ≢ Err out_of_memory
        → ReadsDocument s answer → ReadsDocument s other → answer ≡ other }
{}
