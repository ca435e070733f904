//! Replays one interleaving of the steps on shared cells: a list of events goes in, and out come
//! the words and the places of the hands of the state that they lead to, on plain vectors, or the
//! first event that is no step. What each event asks for stands in `specs/Events`, and the states
//! that events lead to in `specs/Replays`.

mod event;
mod fault;
mod interleaving;
pub mod laws;
mod lists;
mod make;
mod place;
mod scratch;
mod steps;

pub use event::Event;
pub use fault::ReplayFault;
pub use interleaving::{Replayed, replay};
pub use lists::{PlaceList, WordList};
pub use place::ReplayPlace;
