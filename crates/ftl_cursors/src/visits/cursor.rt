//! Cursors over the steps of visits.
ghost use Rattle.std.specs.Prelude.{◌≡◌, ◌+◌, ◌<◌, ◌≤◌, [], ◌∷◌, ◌++◌, map};
ghost use Rattle.std.specs.Prelude.{MatchOption};
ghost use Rattle.ftl_deps.specs.reads.Meant.{meant};
ghost use Rattle.ftl_model.specs.layout.Tree.{size};
ghost use Rattle.ftl_cursors.specs.visits.NodeRanges.{nodes_in};
ghost use Rattle.ftl_cursors.specs.visits.RuleTurns.{turn_steps};
ghost use Rattle.ftl_cursors.specs.visits.VisitSteps.{AreVisits, steps_of_nodes};
ghost use Rattle.ftl_visit.specs.passes.VisitRows.{target_of};

use crate::visits::nodes::{NodeOrder, NodeRange};
use crate::visits::place::{Place, Tables, next_step, next_turns};
use crate::visits::rule_turns::Turns;
use ftl_order::Step;
use ftl_tree::Tree;
use ftl_visit::{PassVisits, RuleTarget};
use std::marker::Model;

/// Goes through the steps of the visits of some nodes. Contracts see the steps that are left.
#[derive(Drop)]
pub struct VisitCursor<'a> {
    tables: Tables<'a>,
    at: Place<'a>,
}

impl<'a> Model for VisitCursor<'a> {
    ghost use Rattle.std.specs.Prelude.{List};
    ghost use Rattle.ftl_order.specs.declared.steps.step.Step.{Step};

    ghost Value = { List Step };

    ghost use Rattle.ftl_cursors.specs.visits.Places.{AreTables, IsPlace, left};

    ghost view = { λ c. left c.tables c.at };

    ghost invariant = { λ c. AreTables c.tables × IsPlace c.tables c.at };
}

impl<'a> VisitCursor<'a> {
    /// The steps of the visits of so many nodes, from the first on in preorder, in this order.
    pub fn new(
        tree: &'a Tree<'a>,
        visits: &'a PassVisits,
        targets: &'a [RuleTarget],
        order: NodeOrder,
        first: u32,
        count: u32,
    ) -> VisitCursor<'a>
        requires visits { AreVisits (meant tree.now.checked) visits.now }
        requires targets { targets.now ≡ map target_of (meant tree.now.checked).rules }
        requires nodes { first + count ≤ size tree.now.tree }
        ensures steps { result ≡ steps_of_nodes (meant tree.now.checked) tree.now.tree visits.now
            (nodes_in order first count) }
    {
        let _nodes = tree.node_count();
        let tables = Tables {
            tree,
            visits,
            targets,
            order,
        };
        let at = Place {
            node: 0,
            rule: 0,
            kid: 0,
            kid_end: 0,
            ops: &[],
            nodes: NodeRange { first, count },
        };
        VisitCursor { tables, at }
    }

    /// The next step; none at the end.
    #[inline(always)]
    pub fn next(&mut self) -> Option<Step>
        ensures step { MatchOption result ((self.old ≡ []) × (self.new ≡ []))
            (λ step. self.old ≡ step ∷ self.new) }
    {
        next_step(self.tables, &mut self.at)
    }

    /// All steps of the next rule at its node, or those that are left of it; none at the end.
    #[inline(always)]
    pub fn next_turns(&mut self) -> Option<Turns>
        ensures steps { MatchOption result ((self.old ≡ []) × (self.new ≡ []))
            (λ turns. (self.old ≡ turn_steps turns ++ self.new) × (turns.kid < turns.kid_end)) }
    {
        next_turns(self.tables, &mut self.at)
    }
}
