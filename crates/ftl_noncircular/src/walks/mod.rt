//! Which numbers walks of a matrix lead to. Goes in: a matrix, and numbers at which walks start.
//! Comes out: whether a walk leads from one of these to a number, also after entries are added.

mod filling;
mod table;

pub use table::Walks;
