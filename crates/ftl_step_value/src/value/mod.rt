//! The value of a step. Goes in: a tree of a checked grammar with the code of its rules, a step at
//! one of its nodes, and the values of the cells that it reads. Comes out: the value of the cell
//! that it fills, or, before any is read, the one cell whose value it copies; which rules' steps
//! copy is told by a table that is made once. `specs/value/StepValue.antt` and
//! `specs/value/RuleCopies.antt` have the words.

mod copied;
mod copies;
mod counts;
mod fold;
mod operation;
mod part;
mod pick;
mod step;
mod values;

pub use copied::copied_cell;
pub use copies::{RuleCopy, rule_copies};
pub use step::step_value;
