//! Why 32 bits hold all counts of a grammar that a text spells, and each attribute is declared by
//! a word that may stand there.

ghost use Rattle.std.specs.Prelude.{ℕ, ◌<◌, ◌≤◌, length};
ghost use Rattle.ftl_model.specs.layout.Limits.{most_page_bytes};
ghost use Rattle.ftl_tokens.specs.reading.Reader.{Tokens};
ghost use Rattle.ftl_tokens.specs.scanner.Tokenized.{AreTokensOf, Tokenized, symbols_of};
ghost use Rattle.ftl_grammar.specs.declared.syntax.rules.Grammar as grammars;
ghost use Rattle.ftl_grammar.specs.reading.Readable.{CanBeRead};
ghost use Rattle.ftl_grammar.specs.syntax.GrammarSpelling.{SpellsGrammar};
ghost use Rattle.ftl_meaning.specs.faults.Counts.{HasSmallCounts};
ghost use Rattle.ftl_meaning.specs.faults.Kinds.{HasKinds};

use ftl_grammar::Grammar;

/// A law: a grammar has no more of anything than tokens spell it, each attribute is declared by a
/// word that may stand there, and a text has no more tokens than bytes.
pub fn counts_of_spelled_grammars()
    ensures spelled { (tokens : Tokens) (g : grammars.Grammar) → SpellsGrammar tokens g
        → length tokens < 4294967296 → HasSmallCounts g }
    ensures kinds { (tokens : Tokens) (g : grammars.Grammar) → SpellsGrammar tokens g
        → HasKinds g }
    ensures tokens { (greatest : ℕ) (scanned : Tokenized)
        → AreTokensOf greatest scanned.text 0 scanned.tokens
        → length (symbols_of scanned) ≤ length scanned.text }
{}

/// Says of a grammar that was read that 32 bits hold its counts, and by which words its attributes
/// are declared.
pub fn small_counts(grammar: &Grammar)
    requires readable { CanBeRead grammar.now }
    ensures small { HasSmallCounts grammar.now }
    ensures kinds { HasKinds grammar.now }
{
    let _ = grammar;
    counts_of_spelled_grammars();
}
