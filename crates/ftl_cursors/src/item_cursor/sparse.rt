//! The steps of an item in which few nodes have rules.
ghost use Rattle.std.specs.Prelude.{◌≡◌, ◌≢◌, ◌+◌, ◌<◌, ◌≤◌, length, IfSome};
ghost use Rattle.ftl_cursors.specs.items.StageItems.{IsFound, items_in, tree_of};
ghost use Rattle.ftl_model.specs.layout.Tree.{size};
ghost use Rattle.ftl_order.specs.orders.Lawful.{IsLawful};
ghost use Rattle.ftl_cursors.specs.item_cursor.ItemSteps.{AreItemTables, IsCursorOf};
ghost use Rattle.ftl_cursors.specs.item_cursor.ItemSteps.{grammar_in};
ghost use Rattle.ftl_cursors.specs.declared.item_cursor.cursor.ItemCursor.TheVariants.{Visits};
ghost use Rattle.ftl_schedule.specs.declared.syntax.kind.PassKind.TheVariants.{InOrder};

use crate::classes::{FEWEST_NODES, is_sparse, visited_classes};
use crate::item_cursor::item::{ItemTables, node_order};
use crate::item_cursor::sparse_cursor::{SparseCursor, SparseSteps};
use crate::item_cursor::sparse_sequence::sparse_sequence;
use crate::items::{FoundItem, StageItems};
use crate::sequence::SparseSequenceCursor;
use crate::visits::{NodeRange, SparseTables, SparseVisitCursor, Tables, visits_make_steps};
use ftl_schedule::PassKind;

/// The steps of an item with many nodes, few of which have rules. None of another, nor, in a
/// topdown or bottomup pass, where no item but hosts' trees may have so many nodes.
#[inline(always)]
pub fn sparse_steps<'a>(
    tables: ItemTables<'a>,
    item: u32,
    found: FoundItem,
) -> Option<SparseCursor<'a>>
    requires law { IsLawful (grammar_in tables) }
    requires tables { AreItemTables tables }
    requires item { item < length (items_in tables.items) }
    requires found { IsFound tables.items item found }
    ensures steps { IfSome result (λ steps. IsCursorOf tables.entry item (Visits steps)) }
{
    if is_cut(tables, found) {
        return None;
    }
    sparse_of(tables, item, found)
}

/// Whether the pass has more than one item, and none but hosts' trees may have so many nodes.
#[inline(always)]
fn is_cut<'a>(tables: ItemTables<'a>, found: FoundItem) -> bool {
    match found.kind {
        PassKind::InOrder => false,
        _ => tables.items.rows.grain < FEWEST_NODES,
    }
}

/// The steps of an item, by the kind of its pass.
#[inline(never)]
fn sparse_of<'a>(tables: ItemTables<'a>, item: u32, found: FoundItem) -> Option<SparseCursor<'a>>
    requires law { IsLawful (grammar_in tables) }
    requires tables { AreItemTables tables }
    requires item { item < length (items_in tables.items) }
    requires found { IsFound tables.items item found }
    ensures steps { IfSome result (λ steps. IsCursorOf tables.entry item (Visits steps)) }
{
    match found.kind {
        PassKind::InOrder => in_sequence(sparse_sequence(tables, item, found)),
        _ => by_visits(sparse_visits(tables, item, found)),
    }
}

/// The cursor over these steps of an inorder pass, where there are any.
fn in_sequence<'a>(steps: Option<SparseSequenceCursor<'a>>) -> Option<SparseCursor<'a>>
    ensures steps { result ≡ steps.entry }
{
    match steps {
        Some(steps) => Some(SparseCursor::new(SparseSteps::Sequence(steps))),
        None => None,
    }
}

/// The cursor over these steps of visits, where there are any.
fn by_visits<'a>(steps: Option<SparseVisitCursor<'a>>) -> Option<SparseCursor<'a>>
    ensures steps { result ≡ steps.entry }
{
    match steps {
        Some(steps) => Some(SparseCursor::new(SparseSteps::Visits(steps))),
        None => None,
    }
}

/// Those of an item of a topdown or bottomup pass.
fn sparse_visits<'a>(
    tables: ItemTables<'a>,
    item: u32,
    found: FoundItem,
) -> Option<SparseVisitCursor<'a>>
    requires law { IsLawful (grammar_in tables) }
    requires tables { AreItemTables tables }
    requires item { item < length (items_in tables.items) }
    requires found { IsFound tables.items item found }
    requires kind { found.kind ≢ InOrder }
    ensures steps { IfSome result (λ steps. IsCursorOf tables.entry item (Visits steps)) }
{
    visits_make_steps();
    let tree = tables.items.rows.tree;
    let _nodes = tree.node_count();
    let count = tables.items.rows_of(found.pass).node_count(found.node);
    if count < FEWEST_NODES {
        return None;
    }
    let nodes = NodeRange {
        first: found.node,
        count,
    };
    let visits = &tables.visits[found.pass as usize];
    let visited = visited_classes(visits, tree.checked().class_count());
    if !is_sparse(blocks_of(tables.items, nodes), visited) {
        return None;
    }
    let all = Tables {
        tree,
        visits,
        targets: tables.targets,
        order: node_order(found.kind),
    };
    let blocks = tables.items.rows.blocks.as_slice();
    let tables = SparseTables {
        all,
        blocks,
        visited,
    };
    Some(SparseVisitCursor::new(tables, nodes))
}

/// The classes of the blocks in which these nodes lie.
fn blocks_of<'a>(items: StageItems<'a>, nodes: NodeRange) -> &'a [u128]
    requires some { 0 < nodes.count }
    requires nodes { nodes.first + nodes.count ≤ size (tree_of items) }
{
    let _nodes = items.rows.tree.node_count();
    let first = nodes.first / 64;
    let last = (nodes.first + nodes.count - 1) / 64;
    &items.rows.blocks[first as usize..last as usize + 1]
}
