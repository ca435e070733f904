//! What each rule of a checked grammar reads, and which rule writes that first. Goes in: a grammar
//! that `ftl_checked::grammars` accepted. Comes out: the table that `specs/reads/DepRows.antt`
//! defines for the grammar with its names gone, by the words of `ftl_order::dependencies`.
//! `specs/reads/Products.antt` says what readers look for.

mod dep_rows;
mod dep_rule;
mod dep_sites;
mod dep_writers;
mod first_rules;
mod laws;
mod product;
mod table;

pub use laws::rows_are_of_rules;
pub use table::{DepTable, dep_table};
