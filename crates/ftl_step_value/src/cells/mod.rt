//! The cells of a step. Goes in: a tree of a checked grammar, and a step at one of its nodes. Comes
//! out: the cell that it fills, how many cells it reads, and these one by one, in order;
//! `specs/cells/ReadCells.antt` has the words.

mod counts;
mod cursor;
mod parts;
mod seen;
mod target;

pub use counts::{read_at, read_count};
pub use cursor::StepReads;
pub use parts::step_parts;
pub use seen::read_cell;
pub use target::target_cell;
