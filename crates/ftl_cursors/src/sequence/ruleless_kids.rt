//! Kids of an inorder pass in whose trees no class has rules.
ghost use Rattle.std.specs.Prelude.{◌≡◌, ◌<◌, ◌≤◌, true, false, length, slice_index_or};
ghost use Rattle.ftl_model.specs.layout.Path.{kids_at};
ghost use Rattle.ftl_model.specs.layout.Tree.{size};
ghost use Rattle.ftl_tree.specs.rows.KidRuns.{IsChildOf};
ghost use Rattle.ftl_cursors.specs.sequence.Places.{AreTables, grammar_of, node_of, tree_of};
ghost use Rattle.ftl_cursors.specs.sequence.SparsePlaces.{AreKnown, AreSparseTables};
ghost use Rattle.ftl_cursors.specs.sequence.SparsePlaces.{HasNoKidRules, HasNoRulesBelow};
ghost use Rattle.ftl_cursors.specs.sequence.SparsePlaces.{HaveNoSteps};

use crate::sequence::block_places::behind;
use crate::sequence::place::{Tables, first_rule};
use crate::sequence::ruleless::{RulelessNodes, SparseTables, look_on};

/// Whether the tree at a node is known to have no rules.
#[inline(always)]
pub(crate) fn is_ruleless(tables: SparseTables<'_>, nodes: RulelessNodes, node: u32) -> bool
    requires tables { AreSparseTables tables }
    requires nodes { AreKnown tables nodes }
    requires node { node < size (tree_of tables.all) }
    ensures rules { result ≡ true → HasNoRulesBelow tables.entry node }
{
    if !reach(nodes, node) {
        return false;
    }
    tables.all.tree.subtree_size(node) <= nodes.end - node
}

/// Whether a node is one of these, or the one behind them.
#[inline(always)]
fn reach(nodes: RulelessNodes, node: u32) -> bool
    ensures first { result ≡ true → nodes.first ≤ node }
    ensures end { result ≡ true → node ≤ nodes.end }
{
    nodes.first <= node && node <= nodes.end
}

/// A kid of a child, this one or a later one, such that those before it have no steps, and no
/// rules of the parent for them either.
pub(crate) fn next_kid(
    tables: SparseTables<'_>,
    nodes: &mut RulelessNodes,
    node: u32,
    child: u32,
    kid: u32,
) -> u32
    requires tables { AreSparseTables tables }
    requires nodes { AreKnown tables nodes.old }
    requires at { IsChildOf (grammar_of tables.all) (tree_of tables.all) node child }
    ensures nodes { AreKnown tables.entry nodes.new }
    ensures order { kid ≤ result }
    ensures steps { HaveNoSteps tables.entry node child kid result }
{
    let _nodes = tables.all.tree.node_count();
    let kid_count = tables.all.tree.kid_count(node, child);
    if kid_count <= kid {
        return kid;
    }
    if has_kid_rules(tables.all, node, child) {
        return kid;
    }
    let kids = tables.all.tree.kids(node, child);
    let number = kids[kid as usize];
    look_on(tables, nodes, number);
    if reach(*nodes, number) {
        return last_up_to(kids, kid, kid_count, nodes.end);
    }
    kid
}

/// Whether a node has rules for the kids in a child.
fn has_kid_rules(tables: Tables<'_>, node: u32, child: u32) -> bool
    requires tables { AreTables tables }
    requires at { IsChildOf (grammar_of tables) (tree_of tables) node child }
    ensures rules { result ≡ false → HasNoKidRules tables.entry node child }
{
    let _nodes = tables.tree.node_count();
    let class = tables.tree.class(node);
    let visit = tables.visits.visit(class);
    let block = tables.places.blocks(class)[child as usize];
    first_rule(behind(visit, block.begin)).is_some()
}

/// The last of these kids, from this one on, whose number is no greater.
fn last_up_to(kids: &[u32], kid: u32, kid_count: u32, number: u32) -> u32
    requires count { kid_count ≡ length kids.now }
    requires kid { kid < kid_count }
    requires first { slice_index_or kids.now kid 0 ≤ number }
    ensures order { kid ≤ result }
    ensures within { result < kid_count }
    ensures number { slice_index_or kids.now result 0 ≤ number }
{
    let mut last = kid;
    let mut end = kid_count;
    'search: while 1 < end - last {
        let middle = last + (end - last) / 2;
        if kids[middle as usize] <= number {
            last = middle;
        } else {
            end = middle;
        }
    }
    last
}
