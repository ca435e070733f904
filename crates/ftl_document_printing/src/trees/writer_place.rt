//! Where a writer stands in a tree.

/// Before the field of a child of a node, or before the end of the node where no child is left; or
/// in a list, before one of its nodes, or before its end where none is left.
#[derive(Clone, Copy)]
pub(crate) enum WriterPlace {
    Field { node: u32, child: u32 },
    Kid { node: u32, child: u32, kid: u32 },
}
