//! Schedules of a grammar's attributes by number, whose passes may nest others.
//! `specs/stages/Nested.antt` says which schedule of `ftl_nests` they stand for. There is no code
//! here but the types.

mod types;

pub use types::{
    Nest, NestingPass, NestingPassList, NestingSchedule, NestingStage, NestingStageList,
};
