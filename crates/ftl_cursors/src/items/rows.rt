//! Where the items of passes begin, and how many nodes they have.
ghost use Rattle.std.specs.Prelude.{◌≡◌, ◌<◌, ◌≤◌, true, length, slice_index_or, IfOk};
ghost use Rattle.ftl_items.specs.stage_items.Cut.{begins_by, nodes_by};
ghost use Rattle.ftl_items.specs.numbers.ItemNumbers.{first_nodes_by, place_by};
ghost use Rattle.ftl_model.specs.layout.Path.{node_at, number_of, top};
ghost use Rattle.ftl_model.specs.layout.Tree.{size};
ghost use Rattle.ftl_schedule.specs.stages.Stages.{kind_of};
ghost use Rattle.ftl_cursors.specs.items.RowsCut.{is_whole_in};
ghost use Rattle.ftl_cursors.specs.items.StageItems.{IsMadeOf, tops_of, tree_in};

use crate::items::columns::ItemRows;
use crate::items::whole::{is_whole_tree, item_size};
use ftl_schedule::PassKind;
use ftl_tree::Tree;
use std::alloc::{AllocError, Global};

impl<'a> ItemRows<'a> {
    /// The rows of a tree, with items of at most so many nodes; but where passes nest a schedule in
    /// nodes of a host class, with the trees of these as items too.
    pub fn new(
        alloc: Global,
        tree: &'a Tree<'a>,
        grain: u32,
        host: Option<u32>,
    ) -> Result<ItemRows<'a>, AllocError>
        ensures made { IfOk result (IsMadeOf tree.now grain host) }
    {
        let mut firsts = Vec::new(alloc);
        let mut before = Vec::with_capacity(alloc, tree.node_count() as usize)?;
        let mut end = 0;
        for node in 0..tree.node_count() {
            before.push(firsts.len() as u32)?;
            if end <= node {
                firsts.push(node)?;
                end = node + item_size(tree, grain, host, node);
            }
        }
        Ok(ItemRows {
            tree,
            grain,
            host,
            firsts,
            before,
        })
    }

    /// How many items a pass has.
    pub fn count(&self, kind: PassKind) -> u32
        ensures count { result ≡ length (tops_of self.now kind) }
        ensures bound { result ≤ 1048576 }
    {
        match kind {
            PassKind::TopDown => self.begin_count(),
            PassKind::BottomUp => self.begin_count(),
            PassKind::InOrder => 1,
        }
    }

    /// The node at which an item of a pass begins.
    pub fn first(&self, kind: PassKind, item: u32) -> u32
        requires item { item < length (tops_of self.now kind) }
        ensures first { result
            ≡ number_of (tree_in self.now) (slice_index_or (tops_of self.now kind) item top) }
    {
        match kind {
            PassKind::TopDown => self.firsts[item as usize],
            PassKind::BottomUp => self.firsts[self.firsts.len() - 1 - item as usize],
            PassKind::InOrder => 0,
        }
    }

    /// How many nodes the item has that begins at this node. They follow one another in preorder.
    pub fn node_count(&self, first: u32) -> u32
        requires node { first < size (tree_in self.now) }
        ensures count { result ≡ length (nodes_by (is_whole_in self.now) (tree_in self.now)
            (node_at (tree_in self.now) first)) }
    {
        item_size(self.tree, self.grain, self.host, first)
    }

    /// Whether the tree at a node is one item: it is small, or a host's.
    pub fn is_whole(&self, node: u32) -> bool
        requires node { node < size (tree_in self.now) }
        ensures whole { result ≡ is_whole_in self.now (node_at (tree_in self.now) node) }
    {
        is_whole_tree(self.tree, self.grain, self.host, node)
    }

    /// The place in a pass of the item that begins at this node.
    pub fn place(&self, kind: PassKind, first: u32) -> u32
        requires node { first < size (tree_in self.now) }
        requires begins { begins_by (is_whole_in self.now) (node_at (tree_in self.now) first) ≡ true }
        ensures place { result ≡ place_by (kind_of kind) (is_whole_in self.now) (tree_in self.now)
            (node_at (tree_in self.now) first) }
    {
        let _nodes = self.tree.node_count();
        let before = self.before[first as usize];
        match kind {
            PassKind::TopDown => before,
            PassKind::BottomUp => self.begin_count() - 1 - before,
            PassKind::InOrder => 0,
        }
    }

    // At how many nodes items begin.
    fn begin_count(&self) -> u32
        ensures count { result ≡ length (first_nodes_by (is_whole_in self.now) (tree_in self.now)) }
        ensures bound { result ≤ 1048576 }
    {
        let _nodes = self.tree.node_count();
        self.firsts.len() as u32
    }
}
