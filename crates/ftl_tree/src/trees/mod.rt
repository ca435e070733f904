//! Trees of a checked grammar. Goes in: the rows of a tree in preorder, with the inputs of each
//! node. Comes out: `Tree`, which contracts see as the checked grammar and the tree, and whose
//! calls tell what stands at each node. `rows` says which rows are those of which tree.
//! `specs/WithInput.antt` of `ftl_model::layout` says what a tree is whose input has another
//! number.

mod build;
mod class_attrs;
mod class_places;
mod class_table;
mod input_counts;
mod instances;
mod laws;
mod runs;
mod tree;
mod widths;
mod zeroed;

pub use crate::rows::{NodeRow, Place};
pub use class_places::attribute_places;
pub use instances::InstanceList;
pub use laws::{one_input_changes, second_word_is_wider, two_bare_words};
pub use tree::Tree;
pub use zeroed::bare_tree;
