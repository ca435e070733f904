//! Rules as code, and the visits that run them. Goes in: a grammar that `ftl_checked` accepted, and
//! the passes of a schedule. Comes out: the code of each rule, which computes what the rule means,
//! and for each pass and class the list of what a visit does.
//!
//! - `rule_code`: code without names, and the engine that runs it
//! - `kept`: code with its constants computed, which stands for code of `rule_code`
//! - `compiled`: `compile`, `Programs`, `run_code`: the code of each part of each rule
//! - `visits`: `visit_list`: the visits of the classes, as lists of rules by number
//! - `rule_values`: what the parts of a rule give, run one after another
//! - `step_reads`: how many occurrences a rule reads at a node
//! - `rule_tables`: rules by class, child and attribute that they define
//! - `passes`: `PassVisits`: the visits of one pass, made once for all nodes
#![tactic(auto)]

pub mod compiled;
pub mod kept;
pub mod passes;
pub mod rule_code;
pub mod rule_tables;
pub mod rule_values;
pub mod step_reads;
pub mod visits;

pub use compiled::{Code, Part, Programs, compile, has_code};
pub use passes::{PassVisits, RuleTarget, rule_targets};
pub use rule_code::{Instruction, Reads};
pub use rule_tables::{RuleTables, class_attributes};
pub use rule_values::{Runner, StepPlace, parts_give_the_rule, step_place};
pub use step_reads::read_count;
pub use visits::{RuleIndex, VisitOp, visit_list};
