//! The classes that a stage visits.
ghost use Rattle.std.specs.Prelude.{◌≡◌};
ghost use Rattle.ftl_cursors.specs.item_cursor.ItemSteps.{AreItemTables};
ghost use Rattle.ftl_cursors.specs.item_cursor.VisitedItems.{HasVisitedIn};

use crate::classes::{visited_classes, with_all};
use crate::item_cursor::item::ItemTables;

/// The classes that a pass of the stage has operations for.
pub fn visited_in(tables: ItemTables<'_>) -> u128
    requires tables { AreItemTables tables }
    ensures visited { HasVisitedIn tables.entry result }
{
    let class_count = tables.items.rows.tree.checked().class_count();
    let mut set = 0;
    for pass in 0..tables.visits.len() {
        set = with_all(set, visited_classes(&tables.visits[pass], class_count));
    }
    set
}
