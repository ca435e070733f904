//! Which trees are one item.
ghost use Rattle.std.specs.Prelude.{◌≡◌, ◌<◌};
ghost use Rattle.ftl_model.specs.layout.Path.{node_at};
ghost use Rattle.ftl_model.specs.layout.Tree.{size};
ghost use Rattle.ftl_cursors.specs.items.WholeTrees.{is_whole_at};
ghost use Rattle.ftl_cursors.specs.visits.ItemSteps.{node_count_by};

use ftl_tree::Tree;

/// Whether the tree at a node is one item.
pub(crate) fn is_whole_tree(tree: &Tree<'_>, grain: u32, host: Option<u32>, node: u32) -> bool
    requires node { node < size tree.now.tree }
    ensures whole { result ≡ is_whole_at host tree.now.tree grain (node_at tree.now.tree node) }
{
    let small = tree.subtree_size(node) <= grain;
    match host {
        None => small,
        Some(class) => small || tree.class(node) == class,
    }
}

/// How many nodes the item has that begins at a node: all of its tree, or the node alone.
pub(crate) fn item_size(tree: &Tree<'_>, grain: u32, host: Option<u32>, node: u32) -> u32
    requires node { node < size tree.now.tree }
    ensures count { result ≡ node_count_by (is_whole_at host tree.now.tree grain) tree.now.tree
        (node_at tree.now.tree node) }
{
    if is_whole_tree(tree, grain, host, node) {
        tree.subtree_size(node)
    } else {
        1
    }
}
