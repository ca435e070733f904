//! What the stages of a plan mean, as definitions and laws without code. Goes in: a grammar with
//! its names gone, an ordered schedule whose passes may nest others, and a tree without a fault of
//! its plan. Comes out: `specs/laws/StageMeanings.antt`, what each stage means with the solution of
//! the tree; why it is lawful work; and `specs/laws/StageWords.antt`, which words fit each stage
//! and what they are at last.

mod stages;
mod words;

pub use stages::{solution_of_plans, stages_are_lawful};
pub use words::words_of_stages;
