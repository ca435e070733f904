//! Schedules as they are written: stages of passes, each with its list of attributes by name, and
//! what it nests.

use ftl_schedule::PassKind;
use ftl_schedule::syntax::{AttributeNames, WrittenStageList};
use ftl_tokens::Name;
use sqlite_items::Items;

/// The stages, which run one after the other.
#[derive(Drop)]
pub struct WrittenNestingSchedule {
    pub stages: WrittenNestingStageList,
}

pub type WrittenNestingStageList = Items<WrittenNestingStage>;

/// The passes of a stage, which run beside each other.
#[derive(Drop)]
pub struct WrittenNestingStage {
    pub passes: WrittenNestingPassList,
}

pub type WrittenNestingPassList = Items<WrittenNestingPass>;

/// One traversal, the attributes that it computes, in the order of their keys, and what it nests.
#[derive(Drop)]
pub struct WrittenNestingPass {
    pub kind: PassKind,
    pub attrs: AttributeNames,
    pub nest: Option<WrittenNest>,
}

/// `nest Host { .. }`: the stages that run inside each node of the host class.
#[derive(Drop)]
pub struct WrittenNest {
    /// The name of the class.
    pub host: Name,
    pub stages: WrittenStageList,
}
