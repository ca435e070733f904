//! The steps of the visits of nodes in a pass that nests a schedule in each node of a class, one
//! after another. Goes in: a tree, a topdown or bottomup pass with the visits of its own list, the
//! host class, the inner passes with the visits of each, in-order ones too, and a range of nodes.
//! Comes out: `HostCursor`, which contracts see as the list of steps that are left;
//! `specs/HostSteps.antt` has that list, and `specs/HostLaws.antt` says that it is what the visits
//! and the items of passes with nests have. `item_steps` gives the steps of an item of a stage,
//! some of whose passes nest others; `specs/NestTables.antt` says which these are.
#![tactic(auto)]

mod cursor;
mod item;
mod laws;
mod nest_cursor;
mod nest_rows;
mod nodes;
mod place;
mod tables;
mod worked_steps;

pub use cursor::HostCursor;
pub use item::item_steps;
pub use laws::{host_visits, rows_cut_as_nests};
pub use nest_cursor::{NestCursor, step_at, step_count};
pub use nest_rows::NestRows;
pub use tables::{HostTables, NestTables};
pub use worked_steps::steps_of_two_rows;
