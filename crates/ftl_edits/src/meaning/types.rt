//! Edits by number.

use sqlite_items::Items;

/// Gives an input of a node a value.
#[derive(Clone, Copy, Debug, PartialEq, Eq, Drop)]
pub struct Edit {
    pub node: u32,
    pub attr: u32,
    pub value: i64,
}

/// Edits in their order, in which they apply.
pub type EditList = Items<Edit>;
