//! Cursors over the steps of an item of a pass that may nest others.
ghost use Rattle.std.specs.Prelude.{◌≡◌, ◌<◌, ◌^◌, [], ◌∷◌, length, slice_index_or, MatchOption};
ghost use Rattle.ftl_cursors.specs.item_cursor.ItemSteps.{no_step};
ghost use Rattle.ftl_host_cursors.specs.NestTables.{nest_steps_left};

use crate::cursor::HostCursor;
use ftl_cursors::{ItemCursor, SparseCursor};
use ftl_order::Step;

/// Goes through the steps of an item.
#[derive(Drop)]
pub enum NestCursor<'a> {
    /// Of a pass that nests nothing.
    Plain(ItemCursor<'a>),
    /// Of such a one, where few of the item's nodes have rules.
    Sparse(SparseCursor<'a>),
    /// By the visits of its nodes, those of hosts with the inner passes over their trees.
    Hosted(HostCursor<'a>),
}

impl<'a> NestCursor<'a> {
    /// The next step; none at the end.
    #[inline(always)]
    pub fn next(&mut self) -> Option<Step>
        ensures step { MatchOption result
            ((nest_steps_left self.old ≡ []) × (nest_steps_left self.new ≡ []))
            (λ step. nest_steps_left self.old ≡ step ∷ nest_steps_left self.new) }
    {
        match self {
            NestCursor::Plain(steps) => steps.next(),
            NestCursor::Sparse(steps) => steps.next(),
            NestCursor::Hosted(steps) => steps.next(),
        }
    }
}

/// How many steps are left; goes through them.
pub fn step_count(steps: NestCursor<'_>) -> u32
    requires few { length (nest_steps_left steps) < 2 ^ 32 }
    ensures count { result ≡ length (nest_steps_left steps.entry) }
{
    let mut steps = steps;
    let mut count = 0;
    while steps.next().is_some() {
        count += 1;
    }
    count
}

/// The step at this place; goes through those before it.
pub fn step_at(steps: NestCursor<'_>, place: u32) -> Step
    requires place { place < length (nest_steps_left steps) }
    ensures step { result ≡ slice_index_or (nest_steps_left steps.entry) place no_step }
{
    let mut steps = steps;
    for _before in 0..place {
        steps.next();
    }
    steps.next().unwrap()
}
