//! The steps of an item of a stage.
ghost use Rattle.std.specs.Prelude.{◌≡◌, ◌≢◌, ◌<◌, length};
ghost use Rattle.ftl_cursors.specs.items.StageItems.{IsFound, items_in};
ghost use Rattle.ftl_order.specs.orders.Lawful.{IsLawful};
ghost use Rattle.ftl_cursors.specs.item_cursor.ItemSteps.{AreItemTables, IsCursorOf};
ghost use Rattle.ftl_cursors.specs.item_cursor.ItemSteps.{grammar_in, order_of};
ghost use Rattle.ftl_cursors.specs.declared.item_cursor.cursor.ItemCursor.TheVariants.{Sequence};
ghost use Rattle.ftl_cursors.specs.declared.item_cursor.cursor.ItemCursor.TheVariants.{Visits};
ghost use Rattle.ftl_schedule.specs.declared.syntax.kind.PassKind.TheVariants.{InOrder};

use crate::inorder::inorder_steps_make_sequences;
use crate::item_cursor::cursor::ItemCursor;
use crate::items::{FoundItem, StageItems};
use crate::sequence::{SequenceCursor, SequencePlaces};
use crate::visits::{NodeOrder, VisitCursor, items_by_ranges, visits_make_steps};
use ftl_schedule::PassKind;
use ftl_visit::{PassVisits, RuleTarget};

/// What the steps of the items of a stage are told by: its items, the visits of each pass with the
/// places of blocks in them, and for whom each rule is.
#[derive(Clone, Copy)]
pub struct ItemTables<'a> {
    pub items: StageItems<'a>,
    pub visits: &'a [PassVisits],
    pub places: &'a [SequencePlaces],
    pub targets: &'a [RuleTarget],
}

/// The steps of an item that was found.
pub fn found_steps<'a>(tables: ItemTables<'a>, item: u32, found: FoundItem) -> ItemCursor<'a>
    requires law { IsLawful (grammar_in tables) }
    requires tables { AreItemTables tables }
    requires item { item < length (items_in tables.items) }
    requires found { IsFound tables.items item found }
    ensures steps { IsCursorOf tables.entry item result }
{
    match found.kind {
        PassKind::InOrder => ItemCursor::Sequence(sequence_steps(tables, item, found)),
        _ => ItemCursor::Visits(visit_steps(tables, item, found)),
    }
}

/// The steps of an item of a topdown or bottomup pass: those of the visits of its nodes.
fn visit_steps<'a>(tables: ItemTables<'a>, item: u32, found: FoundItem) -> VisitCursor<'a>
    requires law { IsLawful (grammar_in tables) }
    requires tables { AreItemTables tables }
    requires item { item < length (items_in tables.items) }
    requires found { IsFound tables.items item found }
    requires kind { found.kind ≢ InOrder }
    ensures steps { IsCursorOf tables.entry item (Visits result) }
{
    visits_make_steps();
    items_by_ranges();
    let tree = tables.items.rows.tree;
    let _nodes = tree.node_count();
    let count = tables.items.rows_of(found.pass).node_count(found.node);
    let visits = &tables.visits[found.pass as usize];
    let order = node_order(found.kind);
    VisitCursor::new(tree, visits, tables.targets, order, found.node, count)
}

/// The steps of the item of an inorder pass: all of the pass.
fn sequence_steps<'a>(tables: ItemTables<'a>, item: u32, found: FoundItem) -> SequenceCursor<'a>
    requires law { IsLawful (grammar_in tables) }
    requires tables { AreItemTables tables }
    requires item { item < length (items_in tables.items) }
    requires found { IsFound tables.items item found }
    requires kind { found.kind ≡ InOrder }
    ensures steps { IsCursorOf tables.entry item (Sequence result) }
{
    inorder_steps_make_sequences();
    let visits = &tables.visits[found.pass as usize];
    let places = &tables.places[found.pass as usize];
    let attrs = tables.items.passes[found.pass as usize].attrs.as_slice();
    SequenceCursor::new(tables.items.rows.tree, visits, places, attrs, 0)
}

/// In which order a pass visits the nodes of an item.
pub(crate) fn node_order(kind: PassKind) -> NodeOrder
    requires kind { kind ≢ InOrder }
    ensures order { result ≡ order_of kind }
{
    match kind {
        PassKind::TopDown => NodeOrder::Preorder,
        PassKind::BottomUp => NodeOrder::Reverse,
        PassKind::InOrder => unreachable!(),
    }
}
