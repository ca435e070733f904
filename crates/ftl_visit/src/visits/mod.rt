//! The visits of the classes of a grammar. Goes in: a grammar that `ftl_checked::grammars`
//! accepted, and a pass. Comes out: for each class the list of what a visit of its nodes does,
//! which `specs/visits/Visits.antt` defines by the rules of the grammar with its names gone.

mod blocks;
mod rule_index;
mod target;
mod visit;
mod visit_op;

pub use rule_index::RuleIndex;
pub use visit::visit_list;
pub use visit_op::{VisitOp, VisitOps};
