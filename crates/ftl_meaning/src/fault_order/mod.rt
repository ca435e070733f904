//! Which of two faults of a grammar is the first. Goes in: the definition of the first fault, of
//! `faults`, and grammars with two faults each, `specs/fault_order/Faulty.antt`. Comes out: laws,
//! stated by empty functions. There is no code here.

mod laws;

pub use laws::{first_of_two_classes, first_of_two_faults, first_of_two_in_a_rule};
