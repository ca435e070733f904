//! Schedules of a grammar with nests, read from tokens. Goes in: a grammar that
//! `ftl_checked::grammars` accepted, and the tokens of a text. Comes out: the schedule by number,
//! or the first of: the place at which the tokens go wrong, too many passes, too many in a stage,
//! a fault of its names. `specs/reading/NestLimits.antt` and `specs/reading/NestReading.antt`
//! define them.

mod laws;
mod limits;
mod read;
mod worked;

pub use laws::{faults_are_of_nesting_schedules, one_nesting_schedule};
pub use read::read_schedule;
pub use worked::limits_of_nesting_schedules;
