//! What is to be built.

/// What is wanted below a node or at the root.
#[derive(Clone, Copy)]
pub enum Want {
    /// A least tree.
    AnyTree,
    /// A least one whose root is of this class.
    ClassTree(u32),
    /// The reader's node with the kids that it has.
    ReaderTree,
    /// The place of the pair.
    PlaceTree,
    /// A way to the place.
    WayTree,
}

/// What is wanted in a child: two kids at most.
#[derive(Clone, Copy)]
pub enum Wants {
    Nothing,
    One(Want),
    Two(Want, Want),
}
