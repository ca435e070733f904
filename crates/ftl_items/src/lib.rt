//! The items of a stage, as definitions and laws without code: which subtrees and single nodes a
//! stage is cut into, in which order they are numbered, and the values that solve a tree as a
//! function of it. Goes in: a grammar with its names gone, a schedule and a tree.
//!
//! - `stage_items`: the items of a stage are lawful work
//! - `numbers`: the number of each item, and to which it hands on
//! - `solution`: the values of all instances after as many rounds of all equations as there are
//!   instances
#![tactic(auto)]

pub mod numbers;
pub mod solution;
pub mod stage_items;

pub use solution::solution_solves;
pub use stage_items::{stages, steps, words_at_the_ends, words_between};
