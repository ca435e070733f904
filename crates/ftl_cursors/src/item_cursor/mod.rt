//! The steps of an item, one after another. Goes in: a tree, the items of a stage, and the visits
//! of its passes. Comes out: `ItemCursor`, a cursor over the steps of an item, which compute what
//! the items of `ftl_items::stage_items` have; of an item with many nodes, few of which have rules,
//! `SparseCursor` over the same steps. `specs/item_cursor/ItemSteps.antt` has the words.

mod cursor;
mod item;
mod laws;
mod sparse;
mod sparse_cursor;
mod sparse_sequence;
mod visited;

pub use cursor::ItemCursor;
pub use item::{ItemTables, found_steps};
pub use laws::items_without_steps;
pub use sparse::sparse_steps;
pub use sparse_cursor::SparseCursor;
pub use visited::visited_in;
