//! Schedules of a grammar, read from tokens. Goes in: a grammar that `ftl_checked::grammars`
//! accepted, and the tokens of a text. Comes out: the schedule with its attributes by number, or
//! the first of: the place at which the tokens go wrong, too many passes, too many in a stage, an
//! attribute that names no computed one. `specs/reading/Limits.antt` and `specs/reading/Read.antt`
//! define them.

mod laws;
mod limits;
mod read;
mod worked;

pub use crate::names::ScheduleFault;
pub use laws::{faults_are_of_schedules, one_schedule};
pub use read::read_schedule;
pub use worked::limits_of_schedules;
