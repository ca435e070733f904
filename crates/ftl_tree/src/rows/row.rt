//! The row of a node.

/// Where a node stands: in which child of its parent, and as which of that child's kids.
#[derive(Clone, Copy, Debug, PartialEq, Eq)]
pub struct Place {
    pub child: u32,
    pub kid: u32,
}

/// A node by its class, the number of its parent and where it stands there. Parent and place of
/// the root are 0.
#[derive(Clone, Copy, Debug, PartialEq, Eq)]
pub struct NodeRow {
    pub class: u32,
    pub parent: u32,
    pub place: Place,
}
