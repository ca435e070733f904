//! Cursors over the steps of an inorder pass.
ghost use Rattle.std.specs.Prelude.{◌≡◌, ◌<◌, [], ◌∷◌, MatchOption};
ghost use Rattle.ftl_deps.specs.reads.Meant.{meant};
ghost use Rattle.ftl_cursors.specs.inorder.InorderSteps.{inorder_steps};
ghost use Rattle.ftl_model.specs.layout.Path.{node_at};
ghost use Rattle.ftl_model.specs.layout.Tree.{size};
ghost use Rattle.ftl_schedule.specs.declared.syntax.kind.PassKind.TheVariants.{InOrder};
ghost use Rattle.ftl_cursors.specs.sequence.BlockPlaces.{places_of};
ghost use Rattle.ftl_visit.specs.passes.VisitRows.{visits_of};

use crate::sequence::block_places::SequencePlaces;
use crate::sequence::place::{Place, Tables, first_rule, next_step, start_place, take_step};
use ftl_order::Step;
use ftl_tree::Tree;
use ftl_visit::PassVisits;
use std::marker::Model;

/// Goes through the steps of an inorder pass over the tree at a node. Contracts see the steps that
/// are left.
#[derive(Drop)]
pub struct SequenceCursor<'a> {
    tables: Tables<'a>,
    at: Place<'a>,
}

impl<'a> Model for SequenceCursor<'a> {
    ghost use Rattle.std.specs.Prelude.{List};
    ghost use Rattle.ftl_order.specs.declared.steps.step.Step.{Step};

    ghost Value = { List Step };

    ghost use Rattle.ftl_cursors.specs.sequence.Places.{AreTables, IsPlace, left};

    ghost view = { λ c. left c.tables c.at };

    ghost invariant = { λ c. AreTables c.tables × IsPlace c.tables c.at };
}

impl<'a> SequenceCursor<'a> {
    /// All steps at a node and below it of a pass with these visits, where these are the places of
    /// its blocks, and its list of attributes is this one.
    pub fn new(
        tree: &'a Tree<'a>,
        visits: &'a PassVisits,
        places: &'a SequencePlaces,
        attrs: &'a [u32],
        first: u32,
    ) -> SequenceCursor<'a>
        requires visits { visits.now ≡ visits_of (meant tree.now.checked) InOrder attrs.now }
        requires places { places.now ≡ places_of visits.now }
        requires first { first < size tree.now.tree }
        ensures steps { result
            ≡ inorder_steps (meant tree.now.checked) tree.now.tree attrs.now
            (node_at tree.now.tree first) }
    {
        let tables = Tables {
            tree,
            visits,
            places,
            attrs,
            first,
        };
        let at = start_place(tables);
        SequenceCursor { tables, at }
    }

    /// The next step; none at the end.
    #[inline(always)]
    pub fn next(&mut self) -> Option<Step>
        ensures step { MatchOption result ((self.old ≡ []) × (self.new ≡ []))
            (λ step. self.old ≡ step ∷ self.new) }
    {
        // Rules stand side by side at a node, so that most steps are the first operation.
        if let Some(rule) = first_rule(self.at.ops) {
            return Some(take_step(self.tables, &mut self.at, rule));
        }
        self.next_after_moves()
    }

    /// The same where a place further on may have the next step.
    #[inline(always)]
    fn next_after_moves(&mut self) -> Option<Step>
        ensures step { MatchOption result ((self.old ≡ []) × (self.new ≡ []))
            (λ step. self.old ≡ step ∷ self.new) }
    {
        // Lent to the call, the place would lie in memory for steps that need no call, too.
        let mut at = self.at;
        let step = next_step(self.tables, &mut at);
        self.at = at;
        step
    }
}
