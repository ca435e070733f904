//! What grammars mean. Goes in: a grammar as it is written. Comes out: its first fault, and of a
//! grammar without one the numbers that its names stand for and the grammar of `ftl_model` that it
//! means, which is lawful and loses nothing. Definitions and laws, but for reads and counts.
//!
//! - `formulas`: expressions as what they compute
//! - `expression_reads`: `reads`: what an expression reads, in the order of the text
//! - `faults`: the first fault of a grammar; what names stand for, by number
//! - `fault_order`: which of two faults is the first
//! - `counts`: `small_counts`: 32 bits hold what a grammar that a text spells has of anything
//! - `grammars`: the grammar with its names gone; the values of expressions and rules
//! - `lawful`: grammars without a fault are lawful with their names gone
//! - `names`: nothing of a grammar is lost where its names go
#![tactic(auto)]

pub mod counts;
pub mod expression_reads;
pub mod fault_order;
pub mod faults;
pub mod formulas;
pub mod grammars;
pub mod lawful;
pub mod names;

pub use counts::{counts_of_spelled_grammars, small_counts};
pub use expression_reads::{ReadKind, ReadRef, reads};
pub use faults::{AttrInfo, ChildInfo, Field, GrammarFault, RuleInfo, RuleName, What};
pub use formulas::ReadName;
pub use lawful::{faultless_grammars_are_lawful, faultless_grammars_are_small};
