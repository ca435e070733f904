//! The classes of blocks of nodes.
ghost use Rattle.std.specs.Prelude.{◌≤◌, IfOk};
ghost use Rattle.ftl_model.specs.layout.Tree.{size};
ghost use Rattle.ftl_cursors.specs.classes.ClassSets.{AreClassBlocks, HasClassesBetween};

use crate::classes::sets::with_class;
use ftl_tree::Tree;
use std::alloc::{AllocError, Global};

/// The fewest nodes of which it pays to look at blocks: that takes as long as some hundred visits.
pub(crate) const FEWEST_NODES: u32 = 1024;

/// The sets of the classes of the blocks of a tree.
pub(crate) fn class_blocks(alloc: Global, tree: &Tree<'_>) -> Result<Vec<u128>, AllocError>
    ensures blocks { IfOk result (λ v. AreClassBlocks tree.now.tree v.items) }
{
    let node_count = tree.node_count();
    let block_count = (node_count + 63) / 64;
    let mut sets = Vec::with_capacity(alloc, block_count as usize)?;
    for block in 0..block_count {
        let first = block * 64;
        let end = node_count.min(first + 64);
        sets.push(classes_between(tree, first, end))?;
    }
    Ok(sets)
}

/// The classes of the nodes from the first on, up to the end.
pub(crate) fn classes_between(tree: &Tree<'_>, first: u32, end: u32) -> u128
    requires end { end ≤ size tree.now.tree }
    ensures classes { HasClassesBetween result tree.now.tree first end }
{
    let mut set = 0;
    for node in first..end {
        set = with_class(set, tree.class(node));
    }
    set
}

/// Whether no more than a quarter of these blocks have one of these classes.
pub(crate) fn is_sparse(blocks: &[u128], classes: u128) -> bool {
    let mut more = blocks.len() / 4;
    for set in blocks {
        if *set & classes != 0 {
            if more == 0 {
                return false;
            }
            more -= 1;
        }
    }
    true
}
