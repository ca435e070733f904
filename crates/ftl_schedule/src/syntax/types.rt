//! Schedules as they are written: stages of passes, each with its list of attributes by name.

use crate::syntax::kind::PassKind;
use ftl_tokens::Name;
use sqlite_items::Items;

/// The stages, which run one after the other.
#[derive(Drop)]
pub struct WrittenSchedule {
    pub stages: WrittenStageList,
}

pub type WrittenStageList = Items<WrittenStage>;

/// The passes of a stage, which run beside each other.
#[derive(Drop)]
pub struct WrittenStage {
    pub passes: WrittenPassList,
}

pub type WrittenPassList = Items<WrittenPass>;

/// One traversal, and the attributes that it computes, in the order of their keys.
#[derive(Drop)]
pub struct WrittenPass {
    pub kind: PassKind,
    pub attrs: AttributeNames,
}

pub type AttributeNames = Items<AttributeName>;

/// `Interface.a` or `Class.a`.
#[derive(Drop)]
pub struct AttributeName {
    /// The name of the interface or class that declares the attribute.
    pub owner: Name,
    pub attr: Name,
}
