//! Laws of the syntax.

ghost use Rattle.std.specs.Prelude.{◌≡◌, ℕ, [], Ok, Err};
ghost use Rattle.ftl_tokens.specs.scanner.Tokenized.{Tokenized};
ghost use Rattle.ftl_tokens.specs.reading.Reader.{Tokens};
ghost use Rattle.ftl_tokens.specs.reading.Place.{LongestFront, IsFaultPlace};
ghost use Rattle.ftl_tokens.specs.reading.Depth.{IsShallow};
ghost use Rattle.ftl_grammar.specs.syntax.Brackets.{brackets, limit};
ghost use Rattle.ftl_grammar.specs.syntax.GrammarReading.{grammar};
ghost use Rattle.ftl_grammar.specs.syntax.GrammarSpelling.{SpellsGrammar};
ghost use Rattle.ftl_grammar.specs.declared.syntax.rules.Grammar.{Grammar};

/// No tokens spell two grammars.
pub fn one_grammar()
    ensures same { (tokens : Tokens) (g h : Grammar)
        → SpellsGrammar tokens g → SpellsGrammar tokens h → g ≡ h }
{}

/// The tokens of a text go wrong at one byte at most.
pub fn one_place()
    ensures same { (scanned : Tokenized) (at other : ℕ) → IsFaultPlace SpellsGrammar scanned at
        → IsFaultPlace SpellsGrammar scanned other → at ≡ other }
{}

/// What the reader of grammars reads is spelled so, and what is spelled so is read, where the
/// brackets aren't too deep. Where it refuses a token, no grammar is spelled, and the tokens go
/// wrong there.
pub fn reads_grammars()
    ensures read { (tokens left : Tokens) (g : Grammar)
        → grammar tokens ≡ Ok (g, left) → SpellsGrammar tokens g }
    ensures spelled { (tokens : Tokens) (g : Grammar) → IsShallow brackets limit tokens
        → SpellsGrammar tokens g → grammar tokens ≡ Ok (g, []) }
    ensures refused { (tokens rest : Tokens) → IsShallow brackets limit tokens
        → grammar tokens ≡ Err rest → (g : Grammar) → SpellsGrammar tokens g → ⊥ }
    ensures place { (tokens rest : Tokens) → IsShallow brackets limit tokens
        → grammar tokens ≡ Err rest → LongestFront SpellsGrammar tokens rest }
{}
