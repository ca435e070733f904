//! Where a cursor stands.
ghost use Rattle.std.specs.Prelude.{◌≡◌, ◌<◌, [], ◌∷◌, Some, None, MatchOption};
ghost use Rattle.ftl_model.specs.layout.Path.{kids_at};
ghost use Rattle.ftl_model.specs.layout.Tree.{size};
ghost use Rattle.ftl_tree.specs.rows.KidRuns.{IsChildOf};
ghost use Rattle.ftl_cursors.specs.inorder.InorderSteps.{inorder_steps};
ghost use Rattle.ftl_cursors.specs.sequence.Places.{AreTables, IsAfter, IsAtKid, IsFirst, IsNext};
ghost use Rattle.ftl_cursors.specs.sequence.Places.{IsPlace, IsWithin, first_of, grammar_of, left};
ghost use Rattle.ftl_cursors.specs.sequence.Places.{node_of, rest_after, rule_first, tree_of};

use crate::sequence::block_places::{SequencePlaces, behind};
use ftl_order::Step;
use ftl_tree::Tree;
use ftl_visit::{PassVisits, VisitOp};

/// What a cursor goes by; the tree at the first node is gone through.
#[derive(Clone, Copy)]
pub(crate) struct Tables<'a> {
    pub tree: &'a Tree<'a>,
    pub visits: &'a PassVisits,
    pub places: &'a SequencePlaces,
    pub attrs: &'a [u32],
    pub first: u32,
}

/// The operations that are left at a node, and the kid for which they are.
#[derive(Clone, Copy)]
pub(crate) struct Place<'a> {
    pub node: u32,
    pub kid: u32,
    pub ops: &'a [VisitOp],
}

/// The place at the first operation of the first node.
#[inline(always)]
pub(crate) fn start_place<'a>(tables: Tables<'a>) -> Place<'a>
    requires tables { AreTables tables }
    ensures place { IsPlace tables.entry result }
    ensures steps { left tables.entry result
        ≡ inorder_steps (grammar_of tables.entry) (tree_of tables.entry) tables.entry.attrs.now
        (first_of tables.entry) }
{
    let _nodes = tables.tree.node_count();
    let node = tables.first;
    let ops = tables.visits.visit(tables.tree.class(node));
    Place { node, kid: 0, ops }
}

/// The next step; none at the end.
#[inline(never)]
pub(crate) fn next_step<'a>(tables: Tables<'a>, at: &mut Place<'a>) -> Option<Step>
    requires tables { AreTables tables }
    requires place { IsPlace tables at.old }
    ensures place { IsPlace tables.entry at.new }
    ensures step { MatchOption result
        ((left tables.entry at.old ≡ []) × (left tables.entry at.new ≡ []))
        (λ step. left tables.entry at.old ≡ step ∷ left tables.entry at.new) }
{
    'search: loop {
        if let Some(rule) = first_rule(at.ops) {
            return Some(take_step(tables, at, rule));
        }
        match next_place(tables, *at) {
            None => return None,
            Some(next) => *at = next,
        }
    }
}

/// The rule that comes first; none where another operation does.
#[inline(always)]
pub(crate) fn first_rule(ops: &[VisitOp]) -> Option<u32>
    ensures rule { result ≡ rule_first ops.now }
{
    if ops.is_empty() {
        return None;
    }
    match ops[0] {
        VisitOp::Rule(rule) => Some(rule),
        _ => None,
    }
}

/// The step of this rule, which comes first.
#[inline(always)]
pub(crate) fn take_step<'a>(tables: Tables<'a>, at: &mut Place<'a>, rule: u32) -> Step
    requires tables { AreTables tables }
    requires place { IsPlace tables at.old }
    requires rule { rule_first at.old.ops.now ≡ Some rule }
    ensures place { IsPlace tables.entry at.new }
    ensures step { left tables.entry at.old ≡ result ∷ left tables.entry at.new }
{
    let _nodes = tables.tree.node_count();
    let step = Step {
        node: at.node,
        rule,
        kid: at.kid,
    };
    at.ops = &at.ops[1..];
    step
}

/// The place behind an operation that is no rule, or above a node that is done; none at the end.
#[inline(always)]
pub(crate) fn next_place<'a>(tables: Tables<'a>, at: Place<'a>) -> Option<Place<'a>>
    requires tables { AreTables tables }
    requires place { IsPlace tables at }
    requires other { rule_first at.ops.now ≡ None }
    ensures next { MatchOption result (left tables.entry at.entry ≡ [])
        (IsNext tables.entry at.entry) }
{
    if at.ops.is_empty() {
        return place_above(tables, at.node);
    }
    match at.ops[0] {
        VisitOp::Begin(child) => Some(kid_place(tables, at.node, child, 0)),
        VisitOp::Visit(child) => Some(first_place(tables, at.node, child, at.kid)),
        VisitOp::Rule(_) => None,
    }
}

/// The place at which what comes after a node begins; none after the first node.
#[inline]
fn place_above<'a>(tables: Tables<'a>, node: u32) -> Option<Place<'a>>
    requires tables { AreTables tables }
    requires node { node < size (tree_of tables) }
    requires within { IsWithin tables node }
    ensures above { MatchOption result (rest_after tables.entry node ≡ [])
        (IsAfter tables.entry node) }
{
    let _nodes = tables.tree.node_count();
    if node == tables.first {
        return None;
    }
    let Some(parent) = tables.tree.parent(node) else {
        return None;
    };
    let place = tables.tree.place(node);
    Some(kid_place(tables, parent, place.child, place.kid + 1))
}

/// The place at this kid of a child, or behind the child where it has no such kid.
#[inline]
pub(crate) fn kid_place<'a>(tables: Tables<'a>, node: u32, child: u32, kid: u32) -> Place<'a>
    requires tables { AreTables tables }
    requires at { IsChildOf (grammar_of tables) (tree_of tables) node child }
    requires within { IsWithin tables node }
    ensures kid { IsAtKid tables.entry node child kid result }
{
    let _nodes = tables.tree.node_count();
    let class = tables.tree.class(node);
    let visit = tables.visits.visit(class);
    let block = tables.places.blocks(class)[child as usize];
    if kid < tables.tree.kid_count(node, child) {
        let ops = behind(visit, block.begin);
        Place { node, kid, ops }
    } else {
        let ops = behind(visit, block.visit);
        Place { node, kid: 0, ops }
    }
}

/// The place at the first operation of a kid.
#[inline]
pub(crate) fn first_place<'a>(tables: Tables<'a>, node: u32, child: u32, kid: u32) -> Place<'a>
    requires tables { AreTables tables }
    requires at { IsChildOf (grammar_of tables) (tree_of tables) node child }
    requires within { IsWithin tables node }
    requires kid { kid < kids_at (tree_of tables) (node_of tables node) child }
    ensures first { IsFirst tables.entry node child kid result }
{
    let _nodes = tables.tree.node_count();
    let below = tables.tree.kid(node, child, kid);
    let ops = tables.visits.visit(tables.tree.class(below));
    Place {
        node: below,
        kid: 0,
        ops,
    }
}
