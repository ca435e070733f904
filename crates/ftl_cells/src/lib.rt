//! Cells that threads fill together, for any work: items in an order, with steps that read cells
//! and fill one. Nothing here knows of trees. Goes in: a `Work`. Comes out: `Cells`, whose calls
//! are one atomic step each, with the rule that holds between any two of them.
//!
//! - `shared`: `Work`, `Cells`, `Hand`, `Filler`: shared cells, and the laws over all interleavings
//! - `work_phases`: in which phase each item of a work can be filled, where the cells are cut into
//!   ranges that workers fill beside each other: before them, in one of them, or after
#![tactic(auto)]

pub mod shared;
pub mod work_phases;

pub use shared::{
    CellKind, Cells, Claim, Deliver, Diamond, Filler, Hand, HandPlace, Look, Meant, Work, open_row,
};
pub use work_phases::{Phase, Phases};
