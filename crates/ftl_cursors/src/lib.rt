//! The steps of items, one after another. Goes in: a tree, the passes of a stage with their visits,
//! and how many nodes an item has at most. Comes out: cursors that give each item's steps without
//! recursion and without memory, and rows that tell which items there are.
//!
//! - `visit_steps`: the visits of `ftl_visit` are those of `ftl_items`
//! - `inorder`: what in-order visits run is the sequence of the pass
//! - `items`: `ItemRows`, `TreeRows`, `StageItems`: the items of a stage in flat rows
//! - `sequence`: `SequenceCursor`, and `SparseSequenceCursor` where few nodes have rules: the steps
//!   of an in-order pass
//! - `stages`: `StageRows`: what a plan keeps for a stage, once for all nodes
//! - `classes`: which classes the nodes of a tree have, block by block
//! - `visits`: `VisitCursor`, and `SparseVisitCursor` where few nodes have rules: the steps of the
//!   visits of a range of nodes
//! - `item_cursor`: `ItemCursor`: the steps of an item; `SparseCursor`: those of one in which few
//!   nodes have rules
#![tactic(auto)]

mod classes;
pub mod inorder;
pub mod item_cursor;
pub mod items;
pub mod sequence;
pub mod stages;
pub mod visit_steps;
pub mod visits;

pub use item_cursor::{ItemCursor, ItemTables, SparseCursor, found_steps, sparse_steps};
pub use items::{ItemRows, StageItems, TreeRows};
pub use stages::{PassTables, StageRows};
