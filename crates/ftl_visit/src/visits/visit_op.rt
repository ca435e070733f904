//! What a visit does.

use sqlite_items::Items;

/// A part of a visit. The rules between `Begin(c)` and `Visit(c)` run for each kid of child `c` in
/// turn, each time followed by the kid's visit; any other rule runs for the node itself, or for all
/// kids of its child, first to last, before the next.
#[derive(Clone, Copy, Debug, PartialEq, Eq)]
pub enum VisitOp {
    /// The rule of this number.
    Rule(u32),
    /// Here begins what is done for each kid of this child.
    Begin(u32),
    /// The visit of a kid of this child.
    Visit(u32),
}

/// What a visit does, in order.
pub type VisitOps = Items<VisitOp>;
