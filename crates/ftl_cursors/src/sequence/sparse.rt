//! Cursors over the steps of an inorder pass in which few nodes have rules.
ghost use Rattle.std.specs.Prelude.{◌≡◌, ◌<◌, [], ◌∷◌, MatchOption};
ghost use Rattle.ftl_cursors.specs.inorder.InorderSteps.{inorder_steps};
ghost use Rattle.ftl_cursors.specs.sequence.Places.{first_of, grammar_of, tree_of};
ghost use Rattle.ftl_cursors.specs.sequence.SparsePlaces.{AreSparseTables};

use crate::sequence::place::{Place, start_place};
use crate::sequence::ruleless::{RulelessNodes, SparseTables};
use crate::sequence::sparse_place::next_sparse_step;
use ftl_order::Step;
use std::marker::Model;

/// Goes through the steps of an inorder pass over the tree at a node, and passes over trees in
/// which no class has rules. Contracts see the steps that are left.
#[derive(Drop)]
pub struct SparseSequenceCursor<'a> {
    tables: SparseTables<'a>,
    nodes: RulelessNodes,
    at: Place<'a>,
}

impl<'a> Model for SparseSequenceCursor<'a> {
    ghost use Rattle.std.specs.Prelude.{List};
    ghost use Rattle.ftl_order.specs.declared.steps.step.Step.{Step};

    ghost Value = { List Step };

    ghost use Rattle.ftl_cursors.specs.sequence.Places.{IsPlace, left};
    ghost use Rattle.ftl_cursors.specs.sequence.SparsePlaces.{AreKnown, AreSparseTables};

    ghost view = { λ c. left c.tables.all c.at };

    ghost invariant = { λ c.
        AreSparseTables c.tables × AreKnown c.tables c.nodes × IsPlace c.tables.all c.at };
}

impl<'a> SparseSequenceCursor<'a> {
    /// All steps at the first node and below it.
    pub(crate) fn new(tables: SparseTables<'a>) -> SparseSequenceCursor<'a>
        requires tables { AreSparseTables tables }
        ensures steps { result
            ≡ inorder_steps (grammar_of tables.entry.all) (tree_of tables.entry.all)
            tables.entry.all.attrs.now (first_of tables.entry.all) }
    {
        let nodes = RulelessNodes { first: 0, end: 0 };
        let at = start_place(tables.all);
        SparseSequenceCursor { tables, nodes, at }
    }

    /// The next step; none at the end.
    pub fn next(&mut self) -> Option<Step>
        ensures step { MatchOption result ((self.old ≡ []) × (self.new ≡ []))
            (λ step. self.old ≡ step ∷ self.new) }
    {
        next_sparse_step(self.tables, &mut self.nodes, &mut self.at)
    }
}
