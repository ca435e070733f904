//! What a grammar as it is written means. Goes in: the syntax trees of `ftl_grammar::syntax`, with
//! the numbers and forms of `ftl_checked::grammars`. Comes out: `specs/grammars/Meaning.antt`, the
//! values of expressions and rules; `specs/grammars/GrammarOf.antt`, the grammar with its names
//! gone; `specs/grammars/Alike.antt`, when two such grammars agree. There is no code here but laws.

mod stack;
mod worked;

pub use stack::the_written_stack;
pub use worked::{
    numbers_of_a_grammar, parts_of_rules, tables_that_solve, values_of_expressions, values_of_rules,
};
