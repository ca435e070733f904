//! The automatic schedule. Goes in: a checked grammar, and what its rules read. Comes out: the
//! schedule that takes the largest set of attributes in each pass, accepted, or the attributes that
//! are left, exactly where no schedule of the grammar is ordered, with nests or without.
//!
//! - `largest_sets`: the least list of the largest set of attributes that can be taken next
//! - `outcomes`: the automatic schedule, by rows of what attributes need in each kind of pass
//! - `finding`: `find_schedule`: the automatic schedule of a checked grammar
#![tactic(auto)]

pub mod finding;
pub mod largest_sets;
pub mod outcomes;

pub use finding::{FindFault, find_schedule};
