//! Instances of a tree by number.
use sqlite_items::Items;

/// Instances by their numbers, as `Tree` gives them.
pub type InstanceList = Items<u32>;
