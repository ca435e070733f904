//! A work's items on lots of its cells, by workers that take lots from each other. Goes in: a
//! work, the words of its cells, and the phases of its items. Comes out: the words of the
//! solution. The items of the first and of the last phase are filled by the calling thread, those
//! of each range as a lot, under one claim. `Phases` of `ftl_cells::work_phases` says which phases
//! a work can take.
//!
//! - `filling`: the items of one phase, on the words of a range
//! - `table`: the words of the lots in the slots of a table, each taken by one step
//! - `words`: the words of all cells, in one row or cut into the parts of lots
//! - `work`: the lots as the items of a work
//! - `run`: all phases of a work
#![tactic(auto)]

mod filling;
mod run;
mod table;
mod words;
mod work;

pub use filling::{ItemBlocks, LotPhases};
pub use run::run_lots;
pub use words::CellWords;
pub use work::laws;
