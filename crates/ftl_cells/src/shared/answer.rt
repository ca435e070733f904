/// What a look at an item's counter found.
#[derive(Clone, Copy, Debug, PartialEq, Eq)]
pub enum Look {
    /// All predecessors have delivered.
    Ready,
    /// So many have not.
    NotYet(u64),
}

/// How a claim of an item went.
#[derive(Clone, Copy, Debug, PartialEq, Eq)]
pub enum Claim {
    /// The item was free.
    Mine,
    /// Another hand has it (1), or it is filled (2).
    Taken(u64),
}

/// Where a delivery went.
#[derive(Clone, Copy, Debug, PartialEq, Eq)]
pub enum Deliver {
    /// To the next item. `last` says that it waits for no other.
    Sent { next: u32, last: bool },
    /// To the common end. The hand has no item any more.
    Finished,
}
