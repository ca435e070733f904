//! Workers that fill the cells of a work, from its first items to its last: `run_alone` on plain
//! words, without threads, and `run_stage` on cells that up to 64 threads share. What comes out is
//! said in the words of `ftl_cells::shared`: the words of the solution, or a hand that found the
//! end.
#![tactic(auto)]

mod alone;
mod dealing;
mod member;
mod stage;
mod worker;

pub use alone::{PlainFiller, run_alone};
pub use dealing::deal;
pub use stage::run_stage;
