//! Schedules whose passes may nest one that runs inside each node of a class. Goes in: a grammar
//! that `ftl_checked` accepted, what its rules read, and such a schedule by number. Comes out: the
//! schedule, accepted, with one without nests that has the same answer, or its first fault.
//!
//! - `stages`: such schedules by number, and which of `ftl_nests` they are
//! - `places`: `PlacedNests`: where each attribute of such a schedule stands
//! - `flat`: `flat_of`: the schedule without nests, each pass as stages of its own
//! - `check`: `verify_nests`, `AcceptedNests`: a schedule that is ordered, or its first fault
#![tactic(auto)]

pub mod check;
pub mod flat;
pub mod places;
pub mod stages;

pub use check::{AcceptedNests, verify_nests};
pub use flat::flat_of;
pub use places::PlacedNests;
pub use stages::{Nest, NestingPass, NestingSchedule, NestingStage};
