//! Cursors over the steps of an item.
ghost use Rattle.std.specs.Prelude.{◌≡◌, [], ◌∷◌, MatchOption};
ghost use Rattle.ftl_cursors.specs.item_cursor.ItemSteps.{steps_left};

use crate::sequence::SequenceCursor;
use crate::visits::VisitCursor;
use ftl_order::Step;

/// Goes through the steps of an item.
#[derive(Drop)]
pub enum ItemCursor<'a> {
    /// By the visits of its nodes.
    Visits(VisitCursor<'a>),
    /// In an inorder pass, which is one item.
    Sequence(SequenceCursor<'a>),
}

impl<'a> ItemCursor<'a> {
    /// The next step; none at the end.
    #[inline(always)]
    pub fn next(&mut self) -> Option<Step>
        ensures step { MatchOption result
            ((steps_left self.old ≡ []) × (steps_left self.new ≡ []))
            (λ step. steps_left self.old ≡ step ∷ steps_left self.new) }
    {
        match self {
            ItemCursor::Visits(visits) => visits.next(),
            ItemCursor::Sequence(sequence) => sequence.next(),
        }
    }
}
