//! What the items of a stage hand on to.
ghost use Rattle.std.specs.Prelude.{◌≡◌, ℕ, ◌+◌, ◌<◌, ◌==◌, if◌then◌else◌};
ghost use Rattle.std.specs.Prelude.{[], ◌∷◌, length, slice_index};
ghost use Rattle.ftl_items.specs.stage_items.Items.{nexts, predecessors};
ghost use Rattle.ftl_items.specs.numbers.ItemNumbers.{item_above_by, items_before_by};
ghost use Rattle.ftl_model.specs.layout.Path.{node_at};
ghost use Rattle.ftl_model.specs.layout.Tree.{size};
ghost use Rattle.ftl_order.specs.orders.Schedule.{bottomup};
ghost use Rattle.ftl_cursors.specs.items.RowsCut.{is_whole_in};
ghost use Rattle.ftl_cursors.specs.items.RowsFit.{IsBegunBelow};
ghost use Rattle.ftl_cursors.specs.items.StageItems.{items_in, kids_of, passes_in, tree_in};

use crate::items::columns::ItemRows;
use crate::items::kids::{kid_at, kid_total};
use crate::items::view::StageItems;
use ftl_schedule::PassKind;

impl<'a> StageItems<'a> {
    /// How many items hand on to an item.
    pub fn pred_count(&self, item: u32) -> u32
        requires item { item < length (items_in self.now) }
        ensures count { result
            ≡ length (predecessors (passes_in self.now) (items_in self.now) item) }
    {
        let found = self.find(item);
        match found.kind {
            PassKind::TopDown => count_above(found.node),
            PassKind::BottomUp => count_below(self.rows_of(found.pass), found.node),
            PassKind::InOrder => 0,
        }
    }

    /// How many items an item hands on to.
    pub fn next_count(&self, item: u32) -> u32
        requires item { item < length (items_in self.now) }
        ensures count { result ≡ length (nexts (passes_in self.now) (items_in self.now) item) }
    {
        let found = self.find(item);
        match found.kind {
            PassKind::TopDown => count_below(self.rows_of(found.pass), found.node),
            PassKind::BottomUp => count_above(found.node),
            PassKind::InOrder => 0,
        }
    }

    /// The items that an item hands on to, by place.
    pub fn next(&self, item: u32, place: u32) -> u32
        requires item { item < length (items_in self.now) }
        requires place { place < length (nexts (passes_in self.now) (items_in self.now) item) }
        ensures next { result
            ≡ slice_index (nexts (passes_in self.now) (items_in self.now) item) place }
    {
        let found = self.find(item);
        match found.kind {
            PassKind::TopDown => {
                found.start + kid_item(self.rows_of(found.pass), found.node, place)
            }
            PassKind::BottomUp => {
                found.start + parent_item(self.rows_of(found.pass), found.node)
            }
            PassKind::InOrder => unreachable!(),
        }
    }
}

// How many items hold the node above one: none does where there is none.
fn count_above(node: u32) -> u32
    ensures count { result ≡ (if node == 0 then 0 else 1) }
{
    if node == 0 { 0 } else { 1 }
}

// How many items begin at the kids of the node at which an item begins.
fn count_below(rows: &ItemRows<'_>, node: u32) -> u32
    requires node { node < size (tree_in rows.now) }
    ensures count { result ≡ (if is_whole_in rows.now (node_at (tree_in rows.now) node) then 0
        else length (kids_of rows.now.tree.now node)) }
{
    if rows.is_whole(node) {
        0
    } else {
        kid_total(rows.tree, node)
    }
}

// The number in a topdown pass of the item that begins at a kid.
fn kid_item(rows: &ItemRows<'_>, node: u32, place: u32) -> u32
    requires node { node < size (tree_in rows.now) }
    requires place { place < length (kids_of rows.now.tree.now node) }
    ensures item { result ≡ items_before_by (is_whole_in rows.now) (tree_in rows.now)
        (slice_index (kids_of rows.now.tree.now node) place) }
{
    let _nodes = rows.tree.node_count();
    rows.before[kid_at(rows.tree, node, place) as usize]
}

// The number in a bottomup pass of the item that begins at a node's parent.
fn parent_item(rows: &ItemRows<'_>, node: u32) -> u32
    requires node { node < size (tree_in rows.now) }
    requires parent { IsBegunBelow (is_whole_in rows.now) (node_at (tree_in rows.now) node) }
    ensures item { (start : ℕ) → item_above_by bottomup (is_whole_in rows.now) (tree_in rows.now) start
        (node_at (tree_in rows.now) node) ≡ (start + result) ∷ [] }
{
    let _nodes = rows.tree.node_count();
    match rows.tree.parent(node) {
        None => unreachable!(),
        Some(parent) => rows.place(PassKind::BottomUp, parent),
    }
}
