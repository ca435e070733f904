//! Cursors over the steps of visits where few nodes have rules.
ghost use Rattle.std.specs.Prelude.{◌≡◌, [], ◌∷◌, MatchOption};
ghost use Rattle.ftl_cursors.specs.visits.SparsePlaces.{AreSparseTables, AreWithin, range_steps};

use crate::visits::cursor::VisitCursor;
use crate::visits::nodes::{NodeOrder, NodeRange};
use crate::visits::sparse_place::{SparseTables, next_step};
use ftl_order::Step;
use std::marker::Model;

/// Goes through the steps of the visits of some nodes, and passes over blocks of nodes that have no
/// class with operations. Contracts see the steps that are left.
#[derive(Drop)]
pub struct SparseVisitCursor<'a> {
    tables: SparseTables<'a>,
    nodes: NodeRange,
    steps: VisitCursor<'a>,
}

impl<'a> Model for SparseVisitCursor<'a> {
    ghost use Rattle.std.specs.Prelude.{List};
    ghost use Rattle.ftl_order.specs.declared.steps.step.Step.{Step};

    ghost Value = { List Step };

    ghost use Rattle.ftl_cursors.specs.visits.SparsePlaces.{AreSparseTables, AreWithin, sparse_left};

    ghost view = { λ c. sparse_left c.tables c.nodes c.steps };

    ghost invariant = { λ c. AreSparseTables c.tables × AreWithin c.tables c.nodes };
}

impl<'a> SparseVisitCursor<'a> {
    /// The steps of the visits of these nodes.
    pub(crate) fn new(tables: SparseTables<'a>, nodes: NodeRange) -> SparseVisitCursor<'a>
        requires tables { AreSparseTables tables }
        requires nodes { AreWithin tables nodes }
        ensures steps { result ≡ range_steps tables.entry nodes }
    {
        let all = tables.all;
        let order = NodeOrder::Preorder;
        let steps = VisitCursor::new(all.tree, all.visits, all.targets, order, 0, 0);
        SparseVisitCursor {
            tables,
            nodes,
            steps,
        }
    }

    /// The next step; none at the end.
    pub fn next(&mut self) -> Option<Step>
        ensures step { MatchOption result ((self.old ≡ []) × (self.new ≡ []))
            (λ step. self.old ≡ step ∷ self.new) }
    {
        next_step(self.tables, &mut self.nodes, &mut self.steps)
    }
}
