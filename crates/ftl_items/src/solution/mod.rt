//! The values that solve a tree, as a function of grammar and tree: `solution` of
//! `specs/solution/Solution.antt`, the values of all instances after as many rounds of all
//! equations as there are instances. A law without code says that it solves each tree of a lawful
//! grammar under each ordered schedule, and alone does.

mod laws;
mod worked_solution;

pub use laws::solution_solves;
pub use worked_solution::solution_of_two_words;
