//! All kids of a node.
ghost use Rattle.std.specs.Prelude.{◌≡◌, ◌<◌, ◌≤◌, length, slice_index};
ghost use Rattle.ftl_model.specs.layout.Path.{class_at, node_at};
ghost use Rattle.ftl_model.specs.layout.Tree.{size};
ghost use Rattle.ftl_deps.specs.reads.Meant.{meant};
ghost use Rattle.ftl_cursors.specs.items.StageItems.{kids_of};

use ftl_tree::Tree;

/// How many kids a node has, those of all children together.
pub(crate) fn kid_total(tree: &Tree<'_>, node: u32) -> u32
    requires node { node < size tree.now.tree }
    ensures count { result ≡ length (kids_of tree.now node) }
{
    let _nodes = tree.node_count();
    let mut total = 0;
    for child in 0..child_count(tree, node) {
        total += tree.kid_count(node, child);
    }
    total
}

/// The number of a kid, counted over all children.
pub(crate) fn kid_at(tree: &Tree<'_>, node: u32, place: u32) -> u32
    requires node { node < size tree.now.tree }
    requires place { place < length (kids_of tree.now node) }
    ensures kid { result ≡ slice_index (kids_of tree.now node) place }
{
    let mut left = place;
    for child in 0..child_count(tree, node) {
        let count = tree.kid_count(node, child);
        if left < count {
            return tree.kid(node, child, left);
        }
        left -= count;
    }
    unreachable!()
}

fn child_count(tree: &Tree<'_>, node: u32) -> u32
    requires node { node < size tree.now.tree }
    ensures count { result ≡ (meant tree.now.checked).child_count
        (class_at tree.now.tree (node_at tree.now.tree node)) }
{
    let _nodes = tree.node_count();
    tree.checked().child_count(tree.class(node))
}
