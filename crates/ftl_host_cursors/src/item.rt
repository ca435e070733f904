//! The steps of an item of a stage whose passes may nest others.
ghost use Rattle.std.specs.Prelude.{◌≡◌, ◌<◌, length, slice_index_or, None, Some};
ghost use Rattle.ftl_order.specs.orders.Lawful.{IsLawful};
ghost use Rattle.ftl_cursors.specs.item_cursor.ItemSteps.{grammar_in};
ghost use Rattle.ftl_cursors.specs.items.StageItems.{IsFound, items_in};
ghost use Rattle.ftl_host_cursors.specs.NestTables.{AreHostTablesOf, AreNestTables};
ghost use Rattle.ftl_host_cursors.specs.NestTables.{IsNestCursorOf};
ghost use Rattle.ftl_host_cursors.specs.declared.nest_cursor.NestCursor.TheVariants.{Hosted};

use crate::cursor::HostCursor;
use crate::nest_cursor::NestCursor;
use crate::nest_rows::NestRows;
use crate::tables::{HostTables, NestTables};
use ftl_cursors::items::FoundItem;
use ftl_cursors::{found_steps, sparse_steps};

/// The steps of an item.
#[inline(always)]
pub fn item_steps<'a>(tables: NestTables<'a>, item: u32) -> NestCursor<'a>
    requires law { IsLawful (grammar_in tables.own) }
    requires tables { AreNestTables tables }
    requires item { item < length (items_in tables.own.items) }
    ensures steps { IsNestCursorOf tables.entry item result }
{
    let found = tables.own.items.find(item);
    match &tables.nests[found.pass as usize] {
        None => match sparse_steps(tables.own, item, found) {
            Some(steps) => NestCursor::Sparse(steps),
            None => NestCursor::Plain(found_steps(tables.own, item, found)),
        },
        Some(nest) => NestCursor::Hosted(hosted_steps(tables, item, found, nest)),
    }
}

/// The steps of an item of a pass that nests others: those of the visits of its nodes.
fn hosted_steps<'a>(
    tables: NestTables<'a>,
    item: u32,
    found: FoundItem,
    nest: &'a NestRows,
) -> HostCursor<'a>
    requires law { IsLawful (grammar_in tables.own) }
    requires tables { AreNestTables tables }
    requires found { IsFound tables.own.items item found }
    requires nest { slice_index_or tables.nests.now found.pass None ≡ Some nest.now }
    ensures steps { IsNestCursorOf tables.entry item (Hosted result) }
{
    let rows = tables.own.items.rows_of(found.pass);
    let count = rows.node_count(found.node);
    HostCursor::new(host_tables(tables, item, found, nest), found.node, count)
}

/// What the cursor of such an item goes by.
fn host_tables<'a>(
    tables: NestTables<'a>,
    item: u32,
    found: FoundItem,
    nest: &'a NestRows,
) -> HostTables<'a>
    requires law { IsLawful (grammar_in tables.own) }
    requires tables { AreNestTables tables }
    requires found { IsFound tables.own.items item found }
    requires nest { slice_index_or tables.nests.now found.pass None ≡ Some nest.now }
    ensures tables { AreHostTablesOf tables.entry found nest.now result }
{
    let pass = &tables.own.items.passes[found.pass as usize];
    let visits = &tables.own.visits[found.pass as usize];
    HostTables {
        tree: tables.own.items.rows.tree,
        targets: tables.own.targets,
        pass,
        visits,
        host: Some(nest.host),
        inner: nest.passes.as_slice(),
        inner_visits: nest.tables.visits.as_slice(),
        inner_places: nest.tables.places.as_slice(),
    }
}
