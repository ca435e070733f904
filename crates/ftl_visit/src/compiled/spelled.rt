//! Why the rules of a grammar that a text spells have code.

ghost use Rattle.std.specs.Prelude.{◌≤◌, length};
ghost use Rattle.ftl_model.specs.layout.Limits.{most_page_bytes};
ghost use Rattle.ftl_tokens.specs.scanner.Tokenized.{AreTokensOf, Tokenized, symbols_of};
ghost use Rattle.ftl_grammar.specs.declared.syntax.rules.Grammar as grammars;
ghost use Rattle.ftl_grammar.specs.reading.Readable.{CanBeRead};
ghost use Rattle.ftl_grammar.specs.syntax.GrammarSpelling.{SpellsGrammar};
ghost use Rattle.ftl_visit.specs.compiled.Compilable.{HasCode};

use ftl_grammar::Grammar;

/// A law: a grammar that a text spells divides by its numbers alone, and its code has no more
/// instructions than the text has tokens. So a grammar that can be read has code.
pub fn spelled_grammars_have_code()
    ensures code { (scanned : Tokenized) (g : grammars.Grammar)
        → AreTokensOf 2147483647 scanned.text 0 scanned.tokens → length scanned.text ≤ most_page_bytes
        → SpellsGrammar (symbols_of scanned) g → HasCode g }
    ensures readable { (g : grammars.Grammar) → CanBeRead g → HasCode g }
{}

/// Says of a grammar that was read that its rules have code.
pub fn has_code(grammar: &Grammar)
    requires readable { CanBeRead grammar.now }
    ensures code { HasCode grammar.now }
{
    let _ = grammar;
    spelled_grammars_have_code();
}
