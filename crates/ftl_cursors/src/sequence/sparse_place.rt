//! Where a cursor goes on that passes over trees without rules.
ghost use Rattle.std.specs.Prelude.{◌≡◌, ◌<◌, [], ◌∷◌, None, MatchOption};
ghost use Rattle.ftl_model.specs.layout.Path.{kids_at};
ghost use Rattle.ftl_tree.specs.rows.KidRuns.{IsChildOf};
ghost use Rattle.ftl_cursors.specs.sequence.Places.{IsNext, IsPlace, IsWithin, grammar_of, left};
ghost use Rattle.ftl_cursors.specs.sequence.Places.{node_of, rule_first, tree_of};
ghost use Rattle.ftl_cursors.specs.sequence.SparsePlaces.{AreKnown, AreSparseTables, IsVisited};

use crate::sequence::place::{Place, first_place, first_rule, kid_place, next_place, take_step};
use crate::sequence::ruleless::{RulelessNodes, SparseTables, look_on};
use crate::sequence::ruleless_kids::{is_ruleless, next_kid};
use ftl_order::Step;
use ftl_visit::VisitOp;

/// The next step; none at the end.
#[inline(never)]
pub(crate) fn next_sparse_step<'a>(
    tables: SparseTables<'a>,
    nodes: &mut RulelessNodes,
    at: &mut Place<'a>,
) -> Option<Step>
    requires tables { AreSparseTables tables }
    requires nodes { AreKnown tables nodes.old }
    requires place { IsPlace tables.all at.old }
    ensures nodes { AreKnown tables.entry nodes.new }
    ensures place { IsPlace tables.entry.all at.new }
    ensures step { MatchOption result
        ((left tables.entry.all at.old ≡ []) × (left tables.entry.all at.new ≡ []))
        (λ step. left tables.entry.all at.old ≡ step ∷ left tables.entry.all at.new) }
{
    'search: loop {
        if let Some(rule) = first_rule(at.ops) {
            return Some(take_step(tables.all, at, rule));
        }
        match next_sparse_place(tables, nodes, *at) {
            None => return None,
            Some(next) => *at = next,
        }
    }
}

/// The place behind an operation that is no rule, or above a node that is done; none at the end.
fn next_sparse_place<'a>(
    tables: SparseTables<'a>,
    nodes: &mut RulelessNodes,
    at: Place<'a>,
) -> Option<Place<'a>>
    requires tables { AreSparseTables tables }
    requires nodes { AreKnown tables nodes.old }
    requires place { IsPlace tables.all at }
    requires other { rule_first at.ops.now ≡ None }
    ensures nodes { AreKnown tables.entry nodes.new }
    ensures next { MatchOption result (left tables.entry.all at.entry ≡ [])
        (IsNext tables.entry.all at.entry) }
{
    if !at.ops.is_empty() {
        if let VisitOp::Visit(child) = at.ops[0] {
            return Some(visit_place(tables, nodes, at.node, child, at.kid));
        }
    }
    next_place(tables.all, at)
}

/// The place at the first operation of a kid, or where its tree has no rules behind it and the
/// kids after it that have no steps.
fn visit_place<'a>(
    tables: SparseTables<'a>,
    nodes: &mut RulelessNodes,
    node: u32,
    child: u32,
    kid: u32,
) -> Place<'a>
    requires tables { AreSparseTables tables }
    requires nodes { AreKnown tables nodes.old }
    requires at { IsChildOf (grammar_of tables.all) (tree_of tables.all) node child }
    requires within { IsWithin tables.all node }
    requires kid { kid < kids_at (tree_of tables.all) (node_of tables.all node) child }
    ensures nodes { AreKnown tables.entry nodes.new }
    ensures place { IsVisited tables.entry.all node child kid result }
{
    let _nodes = tables.all.tree.node_count();
    let _kids = tables.all.tree.kid_count(node, child);
    let number = tables.all.tree.kid(node, child, kid);
    look_on(tables, nodes, number);
    if is_ruleless(tables, *nodes, number) {
        let next = next_kid(tables, nodes, node, child, kid + 1);
        return kid_place(tables.all, node, child, next);
    }
    first_place(tables.all, node, child, kid)
}
