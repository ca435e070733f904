//! Rule code and visits. Goes in: a grammar that `ftl_checked::grammars` accepted. Comes out: the
//! code of its rules, with a law that running it part by part gives the rules' values, and the
//! visits of its classes. `specs/rule_values/PartValues.antt` says what the parts of a rule give.

mod counted;
mod laws;
mod places;

pub use crate::compiled::{Code, Part, Programs, compile, has_code, run_code};
pub use crate::visits::{RuleIndex, VisitOp, VisitOps, visit_list};
pub use counted::Runner;
pub use laws::parts_give_the_rule;
pub use places::{StepPlace, step_place};
