//! Worked grammars and schedules, written out by hand, that the definitions of `orders` are held
//! against, and that each tree of the stack grammar has exactly one table. Comes out: laws, stated
//! by empty functions.

mod stack;
mod worked;

pub use stack::{exactly_one_stack_list, exactly_one_stack_table};
pub use worked::{
    a_chain_of_three, accepted_schedules, legal_orders_of_an_empty_column, parts_that_are_refused,
    refused_schedules, rows_of_ordered_reads, steps_of_two_words, the_pairs_of_stack,
    worked_grammars_are_lawful, worked_tables_solve,
};
