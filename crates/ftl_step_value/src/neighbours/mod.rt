//! The cells that a step reads, found quickly where all its reads are of neighbours: its own node,
//! the kid at hand, and the kid before that one. Goes in: a tree of a checked grammar, a table that
//! is made once for the grammar and tells what each rule reads of neighbours, and a step. Comes
//! out: the cells that the step reads, one by one, in order, or none where its rule reads elsewhere
//! too. `specs/neighbours/NeighbourParts.antt` and `specs/neighbours/NeighbourCells.antt` have the
//! words.

mod cursor;
mod laws;
mod parts;
mod reads;

pub use cursor::NeighbourCells;
pub(crate) use cursor::neighbour_cell;
pub use laws::{parts_of_each_form, parts_of_notes, places_of_notes};
pub use parts::{NeighbourParts, neighbour_parts};
pub use reads::{NeighbourRead, NeighbourSite};
