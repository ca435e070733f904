//! Schedules of a grammar's attributes by number. `specs/stages/Stages.antt` says which schedule of
//! `ftl_order::orders` they stand for. There is no code here but the types.

mod types;

pub use crate::syntax::PassKind;
pub use types::{AttrList, Pass, PassList, Schedule, Stage, StageList};
