//! All phases of a work, its lots by workers. Goes in: a work, its phases and the words of its
//! cells. Comes out: the words of the solution, in the parts of the lots.

mod lots;
mod phases;

pub use phases::run_lots;
