//! The steps of an inorder pass in which few nodes have rules.
ghost use Rattle.std.specs.Prelude.{◌≡◌, ◌<◌, length, IfSome};
ghost use Rattle.ftl_cursors.specs.items.StageItems.{IsFound, items_in};
ghost use Rattle.ftl_order.specs.orders.Lawful.{IsLawful};
ghost use Rattle.ftl_cursors.specs.item_cursor.ItemSteps.{AreItemTables, IsCursorOf};
ghost use Rattle.ftl_cursors.specs.item_cursor.ItemSteps.{grammar_in};
ghost use Rattle.ftl_cursors.specs.declared.item_cursor.cursor.ItemCursor.TheVariants.{Sequence};
ghost use Rattle.ftl_schedule.specs.declared.syntax.kind.PassKind.TheVariants.{InOrder};

use crate::classes::{FEWEST_NODES, is_sparse, ruled_classes};
use crate::inorder::inorder_steps_make_sequences;
use crate::item_cursor::item::ItemTables;
use crate::items::FoundItem;
use crate::sequence::{SparseSequenceCursor, SparseTables, Tables};

/// The steps of the item of an inorder pass over many nodes, few of which have rules; none where
/// these are not few.
pub(crate) fn sparse_sequence<'a>(
    tables: ItemTables<'a>,
    item: u32,
    found: FoundItem,
) -> Option<SparseSequenceCursor<'a>>
    requires law { IsLawful (grammar_in tables) }
    requires tables { AreItemTables tables }
    requires item { item < length (items_in tables.items) }
    requires found { IsFound tables.items item found }
    requires kind { found.kind ≡ InOrder }
    ensures steps { IfSome result (λ steps. IsCursorOf tables.entry item (Sequence steps)) }
{
    inorder_steps_make_sequences();
    let tree = tables.items.rows.tree;
    if tree.node_count() < FEWEST_NODES {
        return None;
    }
    let visits = &tables.visits[found.pass as usize];
    let ruled = ruled_classes(visits, tree.checked().class_count());
    let blocks = tables.items.rows.blocks.as_slice();
    if !is_sparse(blocks, ruled) {
        return None;
    }
    let all = Tables {
        tree,
        visits,
        places: &tables.places[found.pass as usize],
        attrs: tables.items.passes[found.pass as usize].attrs.as_slice(),
        first: 0,
    };
    let tables = SparseTables { all, blocks, ruled };
    Some(SparseSequenceCursor::new(tables))
}
