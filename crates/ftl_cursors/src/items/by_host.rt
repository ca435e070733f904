//! The rows of a tree that is cut into items in several ways.
ghost use Rattle.ftl_cursors.specs.classes.ClassSets.{AreClassBlocks};
ghost use Rattle.ftl_cursors.specs.items.RowsOfTree.{AreOfTree};

use crate::items::columns::ItemRows;
use ftl_tree::Tree;

/// The rows of a tree for passes that have no host class, and then for each host class that passes
/// have; and the classes of each block of nodes.
#[derive(Drop)]
pub struct TreeRows<'a> {
    pub tree: &'a Tree<'a>,
    pub grain: u32,
    pub by_host: Vec<ItemRows<'a>>,
    pub blocks: Vec<u128>,
    pub ghost fit: { AreOfTree tree.now grain by_host.items },
    pub ghost classes: { AreClassBlocks tree.now.tree blocks.items },
}
