//! Examples. Goes in: a grammar, what its rules read, and a schedule whose first fault is a pair.
//! Comes out: a least tree that shows the pair, two of its instances that do, and an order of its
//! computed instances that the schedule allows, in which the reader doesn't stand after the writer;
//! or that no tree shows the pair, or none of at most 512 nodes. `specs/examples/Numbered.antt` has
//! the words.

mod call;
mod early_steps;
mod numbered;
mod placed_copy;
pub mod plain_steps;
mod shown_order;
pub mod shown_steps;
mod types;

pub use call::example;
pub use early_steps::{Half, attr_of, is_near, is_over};
pub use numbered::NumberedOrder;
pub use shown_order::numbers_of;
pub use shown_steps::{AtHand, ShownPlaces};
pub use types::Example;
