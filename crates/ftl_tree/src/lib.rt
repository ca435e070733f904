//! Trees of a checked grammar in flat rows. Goes in: the rows of a tree in preorder, with the
//! inputs of each node. Comes out: `Tree`, which contracts see as the grammar and the tree; and of
//! a tree with the word of each instance its printed boxes.
//!
//! - `rows`: how many nodes each subtree has, where attributes, inputs and kids begin
//! - `trees`: `Tree`, `from_nodes`, `bare_tree`
//! - `boxes`: `print_boxes`: the boxes of a tree, from words
#![tactic(auto)]

pub mod boxes;
pub mod rows;
pub mod trees;

pub use boxes::{
    Printed, number_of_word, print_boxes, shown_by, shown_rows, shows_overflow, word_at,
    words_are_undone,
};
pub use rows::{NodeRow, Place};
pub use trees::{InstanceList, Tree, attribute_places, bare_tree};
