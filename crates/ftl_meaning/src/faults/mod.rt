//! The first fault of a grammar. Goes in: a grammar as it is written, of `ftl_grammar::syntax`.
//! Comes out: `specs/faults/Numbering.antt`, the numbers that names stand for;
//! `specs/faults/Allowed.antt`, what a read by name is; `specs/faults/RuleForms.antt`, what a rule
//! defines; `specs/faults/FirstFault.antt`, the first fault; `specs/faults/Checked.antt`, what the
//! numbers of a lawful grammar stand for. There is no code here but the types of faults and of what
//! is told, and laws.

mod fault;
mod info;
mod kinds;
mod rule_name;
mod worked;

pub use fault::{GrammarFault, What};
pub use info::{AttrInfo, ChildInfo, Field, RuleInfo};
pub use kinds::words_of_attributes;
pub use rule_name::RuleName;
pub use worked::{
    bad_reads, faults_of_names, faults_of_one_child, faults_of_one_class, faults_of_targets,
    grammars_without_a_fault, limits_of_grammars, names_in_schedules, numbers_of_attributes,
    reads_by_name,
};
