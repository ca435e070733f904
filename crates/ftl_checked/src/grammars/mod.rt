//! The check of grammars. Goes in: a grammar as it is written, and the width of its numbers. Comes
//! out: `Checked`, the lawful grammar with what its numbers stand for, or the first fault, which
//! `ftl_meaning::faults` defines. `specs/grammars/Positions.antt` says where an expression of a
//! rule stands, and `specs/grammars/ReadNumbers.antt` what the names that a rule reads stand for.

mod check;
mod checked;
mod class_checks;
mod forms;
mod missing_rules;
mod numbered_read;
mod reading;
mod rules;
mod slots;

pub use check::check_grammar;
pub use checked::Checked;
pub use ftl_meaning::{
    AttrInfo, ChildInfo, Field, GrammarFault, ReadName, RuleInfo, RuleName, What,
};
pub use numbered_read::{NumberedRead, PartReads};
pub use reading::At;
