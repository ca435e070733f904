//! The words of cells, whole or cut into parts of one size. Goes in: the words of all cells. Comes
//! out: the same words, in one row or in parts. `specs/words/Parts.antt` says which parts are words
//! that were cut.

mod cells;
mod copying;
mod parts;
mod row;

pub use cells::CellWords;
pub(crate) use parts::Parts;
pub(crate) use row::WordRow;
