//! The summary of a tree of a sample. Goes in: the name of the grammar, a tree of it, and the word
//! of each attribute instance. Comes out: one line with counts and sums, which `answers` defines
//! in `specs/Summary.antt`. `specs/summary/Summed.antt` says which sums are those of which values.

mod adding;
mod arithmetic;
mod print;
mod sums;

pub use print::print_summary;
