//! What the tokens of a page's sections are. Goes in: the tokens of a grammar, a schedule or a
//! document that follows its syntax. Comes out: at which tokens its declarations, rules, reads,
//! attributes, nodes and fields stand. Nothing of it is proved: it only leads to marks and hints.

mod document;
mod grammar;
mod schedule;
mod search;

pub use document::{field_token, node_token, node_word};
pub use grammar::{Part, Role, grammar_parts};
pub use schedule::{Entry, Pass, schedule_entries};
pub use search::{Outline, child_of, is_attribute};
