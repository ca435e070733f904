//! Interleavings of steps on shared cells, one at a time, on plain vectors, and works to try them
//! on. Goes in: a work and a list of events. Comes out: the state that they lead to, or the first
//! event that is no step. The program doesn't call it.
//!
//! - `example_works`: a chain, two chains, a star, items alone, items over a borrowed slice, each
//!   with its laws
//! - `interleavings`: `replay`: the state that a list of events leads to
#![tactic(auto)]

pub mod example_works;
pub mod interleavings;

pub use example_works::{Chain, EightAlone, Example, Ladder, Lent, Solved, Star};
pub use interleavings::{Event, PlaceList, ReplayFault, ReplayPlace, Replayed, WordList, replay};
