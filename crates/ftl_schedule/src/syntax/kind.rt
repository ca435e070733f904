//! The kinds of traversals.

/// How a traversal goes through a tree.
#[derive(Clone, Copy, Debug, PartialEq, Eq)]
pub enum PassKind {
    TopDown,
    BottomUp,
    InOrder,
}
