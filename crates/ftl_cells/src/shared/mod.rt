//! Cells that threads fill together, for any work: items in an order, with steps that read cells
//! and fill one. A `Work` says what there is to do, `Cells` holds the words that all threads
//! share, and a `Hand` makes the steps, each one atomic step on one word. What a work means stands
//! in `specs/Work`, the state and its steps in `specs/State`, and what holds between any two steps
//! of any number of hands in `specs/Kept`.

mod answer;
mod atomic;
mod cells;
mod diamond;
mod filler;
mod hand;
mod kind;
pub mod laws;
mod open;
mod place;
mod row;
mod rule;
mod shared_filler;
mod steps;
mod work;

pub use answer::{Claim, Deliver, Look};
pub use cells::Cells;
pub use diamond::Diamond;
pub use filler::Filler;
pub use hand::Hand;
pub use kind::CellKind;
pub use place::HandPlace;
pub use row::open_row;
pub use shared_filler::SharedFiller;
pub use work::{Meant, Work};
