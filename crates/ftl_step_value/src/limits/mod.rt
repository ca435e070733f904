//! How much the stages of a tree read. Goes in: a tree of a checked grammar, and a schedule that
//! was accepted for it. Comes out: the first stage or step that reads more than it may, or none.
//!
//! - `reads`: how many reads the equation of an instance has
//! - `faults`: `first_fault`: the first stage or step that reads too much

pub mod faults;
pub mod reads;

pub use faults::{PlanFault, first_fault};
pub use reads::{ReadTables, is_sound};
