//! Stages of passes, each with its list of attributes by number.

use crate::syntax::PassKind;
use sqlite_items::Items;

/// The stages, which run one after the other.
#[derive(Drop)]
pub struct Schedule {
    pub stages: StageList,
}

pub type StageList = Items<Stage>;

/// The passes of a stage, which run beside each other.
#[derive(Drop)]
pub struct Stage {
    pub passes: PassList,
}

pub type PassList = Items<Pass>;

/// One traversal, and the attributes that it computes, in the order of their keys.
#[derive(Drop)]
pub struct Pass {
    pub kind: PassKind,
    pub attrs: AttrList,
}

/// Attributes by number.
pub type AttrList = Items<u32>;
