//! Schedules as they are written. Goes in: the tokens of a text. Comes out: the schedule that they
//! spell, whose attributes and hosts are still names, or the place at which the tokens go wrong.
//! `specs/syntax/NestSpelling.antt` says which tokens spell which schedule, a line of the syntax
//! each.

mod laws;
mod read;
mod types;
mod worked;

pub use laws::{one_nesting_place, one_written_nesting_schedule};
pub use read::read_nesting_schedule;
pub use types::{
    WrittenNest, WrittenNestingPass, WrittenNestingPassList, WrittenNestingSchedule,
    WrittenNestingStage, WrittenNestingStageList,
};
pub use worked::{nest_spellings_by_hand, no_nests_by_hand};
