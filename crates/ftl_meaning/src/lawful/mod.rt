//! Why the meaning of a grammar is lawful. Goes in: grammars without a fault, by `faults`,
//! and their meaning, by `grammars`. Comes out: laws, stated by empty functions, in the words of
//! `specs/`. There is no code here.

mod alike;
mod lawful;
mod worked;

pub use alike::{alike_grammars, the_written_stack_solves};
pub use lawful::{
    faultless_grammars_are_lawful, faultless_grammars_are_small, faults_are_of_grammars,
    rules_are_kept,
};
pub use worked::grammars_without_a_fault;
