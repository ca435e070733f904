//! The conditions on what a grammar declares: how much there is of anything, and names. Goes in: a
//! grammar as it is written, with its tables. Comes out: the first fault among these conditions.

mod flat;
mod limits;
mod names;

pub use flat::{FlatBody, FlatExpr, FlatRule};
pub use limits::limits_hold;
pub use names::names_stand;
