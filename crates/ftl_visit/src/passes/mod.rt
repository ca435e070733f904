//! The visits of the classes of a grammar in one pass, made once for all nodes. Goes in: a grammar
//! that `ftl_checked::grammars` accepted, and a pass. Comes out: `PassVisits`, which lends the
//! visit of each class, and `rule_targets`, for whom each rule is; `specs/passes/VisitRows.antt`
//! says which these are.

mod pass_visits;
mod rule_target;

pub use pass_visits::PassVisits;
pub use rule_target::{RuleTarget, rule_targets};
