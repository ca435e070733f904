//! Nodes of an inorder pass whose classes have no rules.
ghost use Rattle.std.specs.Prelude.{◌<◌, ◌≤◌};
ghost use Rattle.ftl_model.specs.layout.Tree.{size};
ghost use Rattle.ftl_cursors.specs.sequence.Places.{tree_of};
ghost use Rattle.ftl_cursors.specs.sequence.SparsePlaces.{AreKnown, AreSparseTables};
ghost use Rattle.ftl_cursors.specs.sequence.SparsePlaces.{HaveNoRulesIn};

use crate::classes::with_class;
use crate::sequence::place::Tables;

/// What a cursor goes by: what one over all nodes does, the classes of each block of nodes, and
/// those that have rules.
#[derive(Clone, Copy)]
pub(crate) struct SparseTables<'a> {
    pub all: Tables<'a>,
    pub blocks: &'a [u128],
    pub ruled: u128,
}

/// Nodes whose classes have no rules: from the first in preorder on, up to the end.
#[derive(Clone, Copy)]
pub(crate) struct RulelessNodes {
    pub first: u32,
    pub end: u32,
}

/// Looks for such nodes from this one on, where those that are known end there or before. A cursor
/// comes by the nodes in preorder, so it looks at each block once.
#[inline(always)]
pub(crate) fn look_on(tables: SparseTables<'_>, nodes: &mut RulelessNodes, node: u32)
    requires tables { AreSparseTables tables }
    requires nodes { AreKnown tables nodes.old }
    ensures nodes { AreKnown tables.entry nodes.new }
{
    if nodes.end <= node {
        nodes.first = node;
        nodes.end = ruleless_end(tables, node);
    }
}

/// Where the nodes without rules end that begin with this one; the node itself where it has rules.
fn ruleless_end(tables: SparseTables<'_>, node: u32) -> u32
    requires tables { AreSparseTables tables }
    ensures nodes { HaveNoRulesIn tables.entry node result }
{
    let node_count = tables.all.tree.node_count();
    let mut end = node;
    'search: while end < node_count {
        let next = next_end(tables, end);
        if next == end {
            return end;
        }
        end = next;
    }
    end
}

/// Where some of them end: the block of this node, or the node.
fn next_end(tables: SparseTables<'_>, node: u32) -> u32
    requires tables { AreSparseTables tables }
    requires node { node < size (tree_of tables.all) }
    ensures order { node ≤ result }
    ensures nodes { HaveNoRulesIn tables.entry node result }
{
    let _nodes = tables.all.tree.node_count();
    if tables.blocks[(node / 64) as usize] & tables.ruled == 0 {
        return (node / 64 + 1) * 64;
    }
    if with_class(0, tables.all.tree.class(node)) & tables.ruled == 0 {
        return node + 1;
    }
    node
}
