//! The text `stack` that comes with the program, and the grammar that it means.

ghost use Rattle.std.specs.Prelude.{◌≡◌, ◌≢◌, ℕ, None, Result, Ok, Err};
ghost use Rattle.ftl_boxes.specs.Stack.{stack_text};
ghost use Rattle.ftl_grammar.specs.declared.reading.fault.SyntaxFault.{SyntaxFault};
ghost use Rattle.ftl_grammar.specs.declared.reading.fault.SyntaxFault.TheVariants.{OutOfMemory};
ghost use Rattle.ftl_grammar.specs.declared.syntax.rules.Grammar as grammars;
ghost use Rattle.ftl_grammar.specs.printing.TextOf.{IsTextOf};
ghost use Rattle.ftl_grammar.specs.reading.Read.{ReadsGrammar};
ghost use Rattle.ftl_meaning.specs.faults.FirstFault.{first_fault};
ghost use Rattle.ftl_meaning.specs.faults.Worked as written;
ghost use Rattle.ftl_meaning.specs.grammars.Alike.{IsAlike, PrintsAlike};
ghost use Rattle.ftl_meaning.specs.grammars.GrammarOf.{grammar_of, names_of};
ghost use Rattle.ftl_model.specs.layout.Stack.{stack_in};
ghost use Rattle.ftl_model.specs.layout.StackNames.{stack_names};
ghost use Rattle.ftl_tokens.specs.scanner.Scan.{scan};
ghost use Rattle.ftl_tokens.specs.scanner.Tokenized.{Tokenized};

use ftl_grammar::reading::printed_grammars_are_read;
use ftl_meaning::faults::grammars_without_a_fault;
use ftl_meaning::grammars::the_written_stack;

/// A law: the text has tokens, and what is read of them is the stack grammar that was written out
/// by hand. It has no fault, and means the stack grammar of the definitions: number by number, and
/// each rule at any values, in each width.
pub fn the_shipped_stack()
    ensures text { IsTextOf stack_text written.stack }
    ensures read { (scanned : Tokenized) (answer : Result grammars.Grammar SyntaxFault)
        → scanned.text ≡ stack_text → scan 2147483647 scanned.text ≡ Ok scanned.tokens
        → answer ≢ Err OutOfMemory → ReadsGrammar scanned answer → answer ≡ Ok written.stack }
    ensures lawful { first_fault written.stack ≡ None }
    ensures grammar { (greatest : ℕ) → IsAlike (grammar_of greatest written.stack)
        (stack_in greatest) }
    ensures names { PrintsAlike 3 7 (names_of written.stack) stack_names }
{
    printed_grammars_are_read();
    grammars_without_a_fault();
    the_written_stack();
}
