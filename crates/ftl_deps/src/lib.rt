//! What the rules of a checked grammar read. Goes in: a grammar that `ftl_checked` accepted. Comes
//! out: the reads of each rule in the order of the text, with the rule that writes each first, and
//! the parts of each rule with their reads.
//!
//! - `reads`: `dep_table`: what each rule reads, and which rule writes that first
//! - `parts`: `all_rule_parts`: the parts of rules by number
#![tactic(auto)]

pub mod parts;
pub mod reads;

pub use parts::{PartRead, RuleParts, all_rule_parts};
pub use reads::{DepTable, dep_table};
