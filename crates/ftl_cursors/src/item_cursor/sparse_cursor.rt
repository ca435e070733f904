//! Cursors over the steps of an item in which few nodes have rules.
ghost use Rattle.std.specs.Prelude.{◌≡◌, [], ◌∷◌, MatchOption};
ghost use Rattle.ftl_cursors.specs.item_cursor.SparseSteps.{sparse_steps_left};

use crate::sequence::SparseSequenceCursor;
use crate::visits::SparseVisitCursor;
use ftl_order::Step;
use std::marker::Model;

/// The steps of an item, by the kind of its pass.
#[derive(Drop)]
pub(crate) enum SparseSteps<'a> {
    /// Of a topdown or bottomup pass.
    Visits(SparseVisitCursor<'a>),
    /// Of an inorder pass.
    Sequence(SparseSequenceCursor<'a>),
}

impl<'a> SparseSteps<'a> {
    /// The next step; none at the end.
    pub(crate) fn next(&mut self) -> Option<Step>
        ensures step { MatchOption result
            ((sparse_steps_left self.old ≡ []) × (sparse_steps_left self.new ≡ []))
            (λ step. sparse_steps_left self.old ≡ step ∷ sparse_steps_left self.new) }
    {
        match self {
            SparseSteps::Visits(visits) => visits.next(),
            SparseSteps::Sequence(sequence) => sequence.next(),
        }
    }
}

/// Goes through the steps of an item, and passes over nodes without rules. Contracts see the steps
/// that are left.
#[derive(Drop)]
pub struct SparseCursor<'a> {
    steps: SparseSteps<'a>,
}

impl<'a> Model for SparseCursor<'a> {
    ghost use Rattle.std.specs.Prelude.{List};
    ghost use Rattle.ftl_order.specs.declared.steps.step.Step.{Step};

    ghost Value = { List Step };

    ghost use Rattle.ftl_cursors.specs.item_cursor.SparseSteps.{sparse_steps_left};

    ghost view = { λ c. sparse_steps_left c.steps };
}

impl<'a> SparseCursor<'a> {
    /// With these steps.
    pub(crate) fn new(steps: SparseSteps<'a>) -> SparseCursor<'a>
        ensures steps { result ≡ sparse_steps_left steps.entry }
    {
        SparseCursor { steps }
    }

    /// The next step; none at the end.
    pub fn next(&mut self) -> Option<Step>
        ensures step { MatchOption result ((self.old ≡ []) × (self.new ≡ []))
            (λ step. self.old ≡ step ∷ self.new) }
    {
        self.steps.next()
    }
}
