//! Refusals for people. Goes in: the line that refuses a page, the bytes of its file and the texts
//! of its sections. Comes out: the same line, with the place in the file before it, the line there,
//! a mark below it and notes. `places` says what a place is, and `reasons` finds out what is meant.

mod marked;
mod pointed;
mod printed;

pub use marked::{Mark, mark_of, mark_of_token, width_of};
pub use pointed::line_pointed_at;
pub use printed::{Spot, print_refusal};
