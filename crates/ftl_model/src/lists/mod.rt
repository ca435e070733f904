//! Lists of numbers and of other things: where an entry stands, that none stands twice, lists put
//! in order. Goes in: std's lists. Comes out: words of `specs/`, and laws and lemmas on them that
//! several crates want. There is no code here.

mod laws;

pub use laws::{places_in_lists, sorted_lists};
