//! Schedules of traversals as they are written. Goes in: the tokens of a text. Comes out: the
//! schedule that they spell, whose attributes are still names, or the place at which the tokens go
//! wrong. `specs/syntax/Spelling.antt` says which tokens spell which schedule, a line of the syntax
//! each.

mod fault;
mod kind;
mod laws;
mod read;
mod types;

pub use fault::WrittenFault;
pub use kind::PassKind;
pub use laws::{one_place, one_written_schedule};
pub use read::{pass, read_written_schedule, stage, stage_list};
pub use types::{
    AttributeName, AttributeNames, WrittenPass, WrittenPassList, WrittenSchedule, WrittenStage,
    WrittenStageList,
};
