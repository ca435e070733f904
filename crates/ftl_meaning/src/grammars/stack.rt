//! The stack grammar as it is written means the stack grammar that was written out by hand.

ghost use Rattle.std.specs.Prelude.{ℕ};
ghost use Rattle.ftl_model.specs.layout.Stack.{stack_in};
ghost use Rattle.ftl_model.specs.layout.StackNames.{stack_names};
ghost use Rattle.ftl_meaning.specs.faults.Worked as written;
ghost use Rattle.ftl_meaning.specs.grammars.Alike.{IsAlike, PrintsAlike};
ghost use Rattle.ftl_meaning.specs.grammars.GrammarOf.{grammar_of, names_of};

/// A law: number by number, and each rule at any values, in each width.
pub fn the_written_stack()
    ensures grammar { (greatest : ℕ) → IsAlike (grammar_of greatest written.stack)
        (stack_in greatest) }
    ensures names { PrintsAlike 3 7 (names_of written.stack) stack_names }
{}
