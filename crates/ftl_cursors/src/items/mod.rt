//! The items of a stage in flat rows. Goes in: a tree, how many nodes an item has at most, of which
//! classes the nodes are whose trees are items of any size, and the passes of a stage. Comes out:
//! `ItemRows`, once for all passes of one host class, where items begin and how many before each
//! node; `TreeRows`, these rows for each host class; `StageItems`, what each item of a stage hands on
//! to, which is what the items of `ftl_items::stage_items` do; and `item_classes`, which classes the
//! nodes of these items have, block of items by block of items. `specs/items/RowsFit.antt` says what
//! the rows hold, `specs/items/WholeTrees.antt` which trees are one item, and
//! `specs/items/ItemClasses.antt` which classes a block of items has.

mod by_host;
mod classes;
mod columns;
mod kids;
mod next;
mod rows;
mod stage;
mod tree_rows;
mod view;
mod whole;

pub use by_host::TreeRows;
pub use classes::item_classes;
pub use columns::ItemRows;
pub use stage::pass_starts;
pub use tree_rows::is_one_host;
pub use view::{FoundItem, ItemPlace, StageItems};
