//! Stages of passes that may nest stages of their own.

use ftl_schedule::{AttrList, PassKind, Schedule};
use sqlite_items::Items;

/// The stages, which run one after the other.
#[derive(Drop)]
pub struct NestingSchedule {
    pub stages: NestingStageList,
}

pub type NestingStageList = Items<NestingStage>;

/// The passes of a stage, which run beside each other.
#[derive(Drop)]
pub struct NestingStage {
    pub passes: NestingPassList,
}

pub type NestingPassList = Items<NestingPass>;

/// One traversal, the attributes that it computes, in the order of their keys, and what it nests.
#[derive(Drop)]
pub struct NestingPass {
    pub kind: PassKind,
    pub attrs: AttrList,
    pub nest: Option<Nest>,
}

/// A schedule that runs inside each node of the host class, over that node's subtree.
#[derive(Drop)]
pub struct Nest {
    /// The class, by number.
    pub host: u32,
    pub inner: Schedule,
}
