//! Evaluation by demand. Goes in: a tree of a noncircular grammar, and the code of its rules. Comes
//! out: the words of the values that solve the tree.
//!
//! - `demand`: `solve_by_demand`: what an instance reads is computed before it
#![tactic(auto)]

pub mod demand;

pub use demand::solve_by_demand;
