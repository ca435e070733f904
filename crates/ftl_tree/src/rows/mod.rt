//! Trees in flat rows. Goes in: the rows of a tree of an attribute grammar, in preorder. Comes out:
//! how many nodes each tree has, where the attributes, inputs and children of each node begin, and
//! the kids of each child in a run. `specs/rows/Rows.antt` says which rows and inputs are those of
//! which tree, `specs/rows/KidRuns.antt` where the kids of a node stand, and
//! `specs/rows/ClassRows.antt` which numbers the attributes of a class have.

mod class_row;
mod columns;
mod kid_runs;
mod row;
mod sizes;

pub use class_row::ClassRow;
pub use columns::{class_starts, row_widths, sums};
pub use kid_runs::{kid_counts, kids_in_runs};
pub use row::{NodeRow, Place};
pub use sizes::subtree_sizes;
