//! Sets of numbers below 2048, held as 32 lanes of 64 bits, and matrices that have such rows. Each
//! call does to all lanes what the plain set's call does. Contracts see a row as std's finite set
//! (`Rattle.std.specs.FinSet`) and a matrix as the list of its rows; which number a bit stands for
//! is in `specs/Words`, what the least number of a set is in `specs/Least`, and what entries and
//! walks are in `specs/Matrix`. Nothing but a new matrix takes memory.
#![tactic(auto)]

mod matrix;
mod row;
mod words;

pub use matrix::BitMatrix;
pub use row::BitRow;
