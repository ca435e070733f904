//! Cursors over the steps of visits with inner passes.
ghost use Rattle.std.specs.Prelude.{◌≡◌, ◌+◌, ◌≤◌, [], ◌∷◌, MatchOption};
ghost use Rattle.ftl_cursors.specs.item_cursor.ItemSteps.{order_of};
ghost use Rattle.ftl_cursors.specs.visits.NodeRanges.{nodes_in};
ghost use Rattle.ftl_model.specs.layout.Tree.{size};
ghost use Rattle.ftl_host_cursors.specs.HostPlaces.{AreHostTables, steps_in, tree_of};

use crate::nodes::{NodesLeft, node_order};
use crate::place::{HostPlace, next_step};
use crate::tables::HostTables;
use ftl_cursors::ItemCursor;
use ftl_cursors::visits::{NodeOrder, VisitCursor, visits_make_steps};
use ftl_order::Step;
use std::marker::Model;

/// Goes through the steps of the visits of some nodes, those of hosts with the inner passes over
/// their trees. Contracts see the steps that are left.
#[derive(Drop)]
pub struct HostCursor<'a> {
    tables: HostTables<'a>,
    at: HostPlace<'a>,
    steps: ItemCursor<'a>,
}

impl<'a> Model for HostCursor<'a> {
    ghost use Rattle.std.specs.Prelude.{List};
    ghost use Rattle.ftl_order.specs.declared.steps.step.Step.{Step};

    ghost Value = { List Step };

    ghost use Rattle.ftl_host_cursors.specs.HostPlaces.{AreHostTables, IsHostPlace, left};

    ghost view = { λ c. left c.tables c.at c.steps };

    ghost invariant = { λ c. AreHostTables c.tables × IsHostPlace c.tables c.at };
}

impl<'a> HostCursor<'a> {
    /// The steps of the visits of so many nodes, from the first on in preorder, in the order of the
    /// pass.
    pub fn new(tables: HostTables<'a>, first: u32, count: u32) -> HostCursor<'a>
        requires tables { AreHostTables tables }
        requires nodes { first + count ≤ size (tree_of tables) }
        ensures steps { result ≡ steps_in tables.entry
            (nodes_in (order_of tables.entry.pass.now.kind) first count) }
    {
        visits_make_steps();
        let _nodes = tables.tree.node_count();
        let order = node_order(tables.pass.kind);
        let at = HostPlace {
            node: 0,
            own: false,
            passes: &[],
            visits: &[],
            places: &[],
            nodes: NodesLeft {
                order,
                first,
                count,
            },
        };
        let none = VisitCursor::new(
            tables.tree,
            tables.visits,
            tables.targets,
            NodeOrder::Preorder,
            0,
            0,
        );
        let steps = ItemCursor::Visits(none);
        HostCursor { tables, at, steps }
    }

    /// The next step; none at the end.
    #[inline(always)]
    pub fn next(&mut self) -> Option<Step>
        ensures step { MatchOption result ((self.old ≡ []) × (self.new ≡ []))
            (λ step. self.old ≡ step ∷ self.new) }
    {
        next_step(self.tables, &mut self.at, &mut self.steps)
    }
}
