//! The parts of rules by number. Goes in: a grammar that `ftl_checked::grammars` accepted. Comes
//! out: for each rule its parts with their reads, as `ftl_model::layout` has them.
//! `specs/parts/RuleParts.antt` says what they stand for.

mod all_parts;
mod part_read;
mod rule_parts;
mod written_parts;

pub use all_parts::all_rule_parts;
pub use part_read::PartRead;
pub use rule_parts::RuleParts;
