//! The items of one phase. Goes in: a work, its phases, and the words of a range of cells. Comes
//! out: these words, once each item of the phase is filled. `specs/filling/Filled.antt` says what
//! the words hold before and after.

mod blocks;
mod fill;
mod filler;
mod lot_phases;
mod run_items;
mod spans;

pub use blocks::ItemBlocks;
pub(crate) use fill::fill_phase;
pub use lot_phases::LotPhases;
pub(crate) use run_items::RunItems;
pub(crate) use spans::Span;
