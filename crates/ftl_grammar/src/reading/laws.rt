//! Laws of what the reader of grammar texts answers.

ghost use Rattle.std.specs.Prelude.{◌≡◌, ◌≢◌, List, Result, Ok, Err};
ghost use Rattle.ftl_tokens.specs.declared.scanner.kind.Token.{Token};
ghost use Rattle.ftl_tokens.specs.scanner.Scan.{scan};
ghost use Rattle.ftl_tokens.specs.scanner.Tokenized.{Tokenized};
ghost use Rattle.ftl_grammar.specs.declared.syntax.rules.Grammar.{Grammar};
ghost use Rattle.ftl_grammar.specs.declared.reading.fault.SyntaxFault.{SyntaxFault};
ghost use Rattle.ftl_grammar.specs.declared.reading.fault.SyntaxFault.TheVariants.{OutOfMemory};
ghost use Rattle.ftl_grammar.specs.printing.GrammarTokens.{grammar_text};
ghost use Rattle.ftl_grammar.specs.printing.TextOf.{IsTextOf};
ghost use Rattle.ftl_grammar.specs.reading.Read.{ReadsGrammar};
ghost use Rattle.ftl_grammar.specs.reading.Printed.{IsScanned};

/// Each text has one answer, want of memory aside: the one grammar that its tokens spell, or the
/// one fault with its one place.
pub fn one_answer()
    ensures some { (scanned : Tokenized) → (answer : Result Grammar SyntaxFault)
        × (answer ≢ Err OutOfMemory) × ReadsGrammar scanned answer }
    ensures any_two { (scanned : Tokenized) (answer other : Result Grammar SyntaxFault)
        → answer ≢ Err OutOfMemory → other ≢ Err OutOfMemory
        → ReadsGrammar scanned answer → ReadsGrammar scanned other → answer ≡ other }
{}

/// A grammar that was read from some text is read again from its canonical text: this has tokens,
/// and the answer to them is that grammar, want of memory aside. So is the answer to each text of a
/// grammar, as `print_grammar` gives one of a grammar that was read.
pub fn printed_grammars_are_read()
    ensures scanned { (scanned : Tokenized) (g : Grammar) → IsScanned scanned
        → ReadsGrammar scanned (Ok g)
        → (tokens : List Token) × (scan 2147483647 (grammar_text g) ≡ Ok tokens) }
    ensures read { (scanned printed : Tokenized) (g : Grammar) (answer : Result Grammar SyntaxFault)
        → IsScanned scanned → ReadsGrammar scanned (Ok g)
        → IsScanned printed → printed.text ≡ grammar_text g
        → answer ≢ Err OutOfMemory → ReadsGrammar printed answer → answer ≡ Ok g }
    ensures texts { (printed : Tokenized) (g : Grammar) (answer : Result Grammar SyntaxFault)
        → scan 2147483647 printed.text ≡ Ok printed.tokens → IsTextOf printed.text g
        → answer ≢ Err OutOfMemory → ReadsGrammar printed answer → answer ≡ Ok g }
{}
