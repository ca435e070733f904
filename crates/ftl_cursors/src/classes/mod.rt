//! Which classes the nodes of a tree have, block by block. Goes in: a tree, or the visits of a
//! pass. Comes out: `class_blocks`, the set of the classes of each 64 nodes that follow one another
//! in preorder; `visited_classes`, the set of those that a pass has operations for, and
//! `ruled_classes`, of those that it has rules for. So a pass in which few nodes have rules goes by
//! the blocks that have one of these, and passes over the others.
//! `specs/classes/ClassSets.antt` says which classes a set has.

mod blocks;
mod sets;

pub(crate) use blocks::{FEWEST_NODES, class_blocks, classes_between, is_sparse};
pub(crate) use sets::{ruled_classes, visited_classes, with_all, with_class};
