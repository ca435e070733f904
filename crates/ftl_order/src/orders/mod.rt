//! Why exactly one table solves the equations of a tree: chains of reads that end, as under an
//! ordered schedule of passes. Goes in: the definitions of `ftl_model::layout`. Comes out: laws,
//! stated by empty functions, in the words of `specs/`. There is no code here.

mod grammar;
mod legal_order;
mod notes;
mod numbers;
mod one_table;

pub use grammar::{attributes_have_owners, values_are_in_range};
pub use legal_order::{
    exactly_one_table, inorder_sequences, legal_orders, ordered_reads, reads_are_pairs,
    runs_end_in_the_table, steps_that_must_precede,
};
pub use notes::{notes_are_lawful, orders_of_a_sheet, reads_of_a_sheet, writers_of_a_shift};
pub use numbers::{instance_numbers, preorder_numbers, subtree_ranges};
pub use one_table::{one_list_where_reads_end, one_table_where_reads_end, reads_end_by_rank};
