//! The definitions that several crates speak of: values, trees, attribute grammars with the names
//! gone, the table that solves a tree, and its printed boxes. Each stands in a file of `specs/`.
//! There is no code here but laws, which are empty functions whose contracts state them.

mod inputs;
mod worked;

pub use inputs::{instances_without_inputs, nodes_without_inputs};
pub use worked::{
    a_column_of_two_words, a_sheet_with_a_note, an_empty_column, an_overflowing_place,
    columns_in_a_column, heights_of_a_wide_page, highest_words_of_both_widths, overflowing_heights,
    reads_of_a_sheet_with_a_note, trees_that_are_refused, words_of_another_size,
};
