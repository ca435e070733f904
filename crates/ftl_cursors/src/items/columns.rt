//! The nodes at which items begin.
ghost use Rattle.ftl_cursors.specs.items.WholeTrees.{is_whole_at};
ghost use Rattle.ftl_cursors.specs.items.RowsFit.{AreItemRows};

use ftl_tree::Tree;

/// The nodes of a tree at which items begin, and how many begin before each node: once for all
/// topdown and bottomup passes that nest nothing, or nest a schedule in nodes of this host class.
#[derive(Drop)]
pub struct ItemRows<'a> {
    pub tree: &'a Tree<'a>,
    pub grain: u32,
    pub host: Option<u32>,
    pub firsts: Vec<u32>,
    pub before: Vec<u32>,
    pub ghost fit: { AreItemRows (is_whole_at host tree.now.tree grain) tree.now.tree
        firsts.items before.items },
}
