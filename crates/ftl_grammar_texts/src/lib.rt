//! Lawful grammars, from their texts. Goes in: a text. Comes out: the grammar that it spells,
//! checked. A law says what the text `stack` that comes with the program means.
#![tactic(auto)]

mod checked_text;
mod shipped;

pub use checked_text::grammar_of_text;
pub use shipped::the_shipped_stack;
