//! What kind of cell the cells of a tree are in a stage. Goes in: a tree of a checked grammar, a
//! schedule that was accepted for it, a stage, and a cell. Comes out: whether the cell is filled
//! before the stage, by it, or after it, as the work of a stage in `ftl_items::stage_items` has it.
//! `specs/cells/NodeCells.antt` says which cells are a node's.

mod kind;
mod node;

pub use kind::cell_kind;
