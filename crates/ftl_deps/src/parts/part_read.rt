//! What a part of a rule reads.

/// A read of a part of a rule: the child, if there is one, and the attribute, by number.
#[derive(Clone, Copy, Debug, PartialEq, Eq)]
pub enum PartRead {
    /// Of the node itself.
    Own(u32),
    /// Of a single child.
    Single(u32, u32),
    /// Of the kid that a fold has come to.
    Each(u32, u32),
    /// Of the kid that the rule is for.
    This(u32, u32),
    /// Of the kid before that one.
    Prev(u32, u32),
    /// Of the last kid, where there is one.
    Last(u32, u32),
}
