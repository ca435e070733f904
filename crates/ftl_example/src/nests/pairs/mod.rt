//! The pair of a fault. Goes in: a grammar, what its rules read, and a schedule with nests whose
//! first fault names two rules. Comes out: the reader's first read that is not ordered, with its
//! part, by number.

pub mod first_pair;
mod first_read;
mod laws;

pub use laws::first_nest_pairs;
