//! The steps of a stage: a rule that runs at a node of a tree. Goes in: a grammar with its names
//! gone and a tree. Comes out: `Step`, and in `specs/steps/Steps.antt` which instance a step
//! computes.

mod step;

pub use step::Step;
