//! How much rules read. Goes in: a tree, and the parts of a rule that runs at one of its nodes.
//! Comes out: how many occurrences it reads there; `specs/step_reads/StepReads.antt` has the words.

mod counts;

pub use counts::read_count;
