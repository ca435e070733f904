//! The check of grammars. Goes in: a grammar as it is written, and the width of its numbers. Comes
//! out: `Checked`, the lawful grammar with what its numbers stand for, or the first fault.
//!
//! - `names`: `NameTable`: names in order, each found by its text
//! - `lookup`: tables beside a grammar, in which a name is found without a scan
//! - `declarations`: the conditions on how much there is of anything, and on names
//! - `grammars`: `check_grammar`, `Checked`
#![tactic(auto)]

pub mod declarations;
pub mod grammars;
pub mod lookup;
pub mod names;

pub use grammars::{
    At, Checked, ChildInfo, Field, GrammarFault, NumberedRead, PartReads, ReadName, RuleInfo,
    RuleName, What, check_grammar,
};
pub use names::NameTable;
