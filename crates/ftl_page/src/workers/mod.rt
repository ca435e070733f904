//! How a page is solved: by how many workers, and how many nodes a subtree has that one worker
//! visits at once. Goes in: the texts of the options that say it, where they stand. Comes out: both
//! numbers, or none where a text is no number from 1 to the greatest. `specs/workers/Solvings.antt`
//! says which these are, and `specs/workers/Numerals.antt` which numbers words write.

mod numerals;
mod solving;

pub use numerals::number;
pub use solving::{Solving, solving_by};
