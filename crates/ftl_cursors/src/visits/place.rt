//! Where a cursor stands.
ghost use Rattle.std.specs.Prelude.{◌≡◌, ◌+◌, ◌<◌, true, false, [], ◌∷◌, ◌++◌};
ghost use Rattle.std.specs.Prelude.{length, MatchOption};
ghost use Rattle.ftl_model.specs.layout.Path.{node_at};
ghost use Rattle.ftl_model.specs.layout.Tree.{size};
ghost use Rattle.ftl_order.specs.steps.Steps.{rule_at};
ghost use Rattle.ftl_cursors.specs.visits.Places.{AreTables, IsOpAt, IsPlace, grammar_of, left};
ghost use Rattle.ftl_cursors.specs.visits.Places.{ops_left, tree_of};
ghost use Rattle.ftl_cursors.specs.visits.RuleTurns.{turn_steps};
ghost use Rattle.ftl_cursors.specs.visits.VisitSteps.{turns};

use crate::visits::nodes::{NodeOrder, NodeRange, take_node};
use crate::visits::rule_turns::Turns;
use ftl_order::Step;
use ftl_tree::Tree;
use ftl_visit::{PassVisits, RuleTarget, VisitOp};

/// What a cursor goes by.
#[derive(Clone, Copy)]
pub(crate) struct Tables<'a> {
    pub tree: &'a Tree<'a>,
    pub visits: &'a PassVisits,
    pub targets: &'a [RuleTarget],
    pub order: NodeOrder,
}

/// The kids that are left for a rule, the operations after it at the same node, and the nodes
/// after that.
#[derive(Drop)]
pub(crate) struct Place<'a> {
    pub node: u32,
    pub rule: u32,
    pub kid: u32,
    pub kid_end: u32,
    pub ops: &'a [VisitOp],
    pub nodes: NodeRange,
}

/// The next step; none at the end.
#[inline(always)]
pub(crate) fn next_step<'a>(tables: Tables<'a>, at: &mut Place<'a>) -> Option<Step>
    requires tables { AreTables tables }
    requires place { IsPlace tables at.old }
    ensures place { IsPlace tables.entry at.new }
    ensures step { MatchOption result
        ((left tables.entry at.old ≡ []) × (left tables.entry at.new ≡ []))
        (λ step. left tables.entry at.old ≡ step ∷ left tables.entry at.new) }
{
    'search: while at.kid == at.kid_end {
        if !go_on(tables, at) {
            return None;
        }
    }
    let step = Step {
        node: at.node,
        rule: at.rule,
        kid: at.kid,
    };
    at.kid += 1;
    Some(step)
}

/// All steps of the next rule at its node, or those that are left of it; none at the end.
#[inline(always)]
pub(crate) fn next_turns<'a>(tables: Tables<'a>, at: &mut Place<'a>) -> Option<Turns>
    requires tables { AreTables tables }
    requires place { IsPlace tables at.old }
    ensures place { IsPlace tables.entry at.new }
    ensures steps { MatchOption result
        ((left tables.entry at.old ≡ []) × (left tables.entry at.new ≡ []))
        (λ turns. (left tables.entry at.old ≡ turn_steps turns ++ left tables.entry at.new)
        × (turns.kid < turns.kid_end)) }
{
    'search: while at.kid == at.kid_end {
        if !go_on(tables, at) {
            return None;
        }
    }
    let turns = Turns {
        node: at.node,
        rule: at.rule,
        kid: at.kid,
        kid_end: at.kid_end,
    };
    at.kid = at.kid_end;
    Some(turns)
}

/// Begins the next operation of the node, or the next node; false at the end.
#[inline(always)]
fn go_on<'a>(tables: Tables<'a>, at: &mut Place<'a>) -> bool
    requires tables { AreTables tables }
    requires place { IsPlace tables at.old }
    requires done { at.old.kid ≡ at.old.kid_end }
    ensures place { IsPlace tables.entry at.new }
    ensures left { left tables.entry at.new ≡ left tables.entry at.old }
    ensures end { result ≡ false → left tables.entry at.old ≡ [] }
    ensures less { result ≡ true → ops_left tables.entry at.new + 1 ≡ ops_left tables.entry at.old }
{
    if at.ops.is_empty() {
        next_node(tables, at)
    } else {
        next_op(tables, at);
        true
    }
}

/// Begins the visit of the next node; false where there is none.
#[inline(always)]
fn next_node<'a>(tables: Tables<'a>, at: &mut Place<'a>) -> bool
    requires tables { AreTables tables }
    requires place { IsPlace tables at.old }
    requires done { at.old.kid ≡ at.old.kid_end }
    requires ops { at.old.ops.now ≡ [] }
    ensures place { IsPlace tables.entry at.new }
    ensures left { left tables.entry at.new ≡ left tables.entry at.old }
    ensures end { result ≡ false → left tables.entry at.old ≡ [] }
    ensures less { result ≡ true → ops_left tables.entry at.new + 1 ≡ ops_left tables.entry at.old }
{
    let _nodes = tables.tree.node_count();
    match take_node(&mut at.nodes, tables.order) {
        None => false,
        Some(node) => {
            at.node = node;
            at.ops = tables.visits.visit(tables.tree.class(node));
            true
        }
    }
}

/// Begins the next operation of the node.
#[inline(always)]
fn next_op<'a>(tables: Tables<'a>, at: &mut Place<'a>)
    requires tables { AreTables tables }
    requires place { IsPlace tables at.old }
    requires done { at.old.kid ≡ at.old.kid_end }
    requires ops { 0 < length at.old.ops.now }
    ensures place { IsPlace tables.entry at.new }
    ensures left { left tables.entry at.new ≡ left tables.entry at.old }
    ensures less { ops_left tables.entry at.new + 1 ≡ ops_left tables.entry at.old }
{
    let op = at.ops[0];
    at.ops = &at.ops[1..];
    if let VisitOp::Rule(rule) = op {
        at.rule = rule;
        at.kid = 0;
        at.kid_end = turns(tables, at.node, rule);
    }
}

/// How often a rule runs at a node.
#[inline(always)]
fn turns(tables: Tables<'_>, node: u32, rule: u32) -> u32
    requires tables { AreTables tables }
    requires node { node < size (tree_of tables) }
    requires rule { IsOpAt (grammar_of tables) (tree_of tables) node (VisitOp.Rule rule) }
    ensures turns { result ≡ turns (tree_of tables.entry) (node_at (tree_of tables.entry) node)
        (rule_at (grammar_of tables.entry) rule) }
{
    match tables.targets[rule as usize] {
        RuleTarget::Own => 1,
        RuleTarget::Kids(child) => tables.tree.kid_count(node, child),
    }
}
