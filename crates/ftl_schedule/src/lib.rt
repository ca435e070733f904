//! Schedules of a grammar. Goes in: a grammar that `ftl_checked` accepted, what its rules read, and
//! the tokens of a text or a schedule by number. Comes out: the schedule, accepted, or its first
//! fault; and of a schedule its canonical text, which is read as the same schedule again.
//!
//! - `syntax`: `read_written_schedule`: the schedule that tokens spell, by names
//! - `stages`: schedules by number, and which schedule of `ftl_order` they are
//! - `places`: `Placed`: where each attribute of a schedule stands
//! - `text`: the canonical text of a schedule by names
//! - `check`: `verify`, `Accepted`: a schedule that is ordered, or its first fault
//! - `names`: `schedule_named`: the attributes that a schedule names, by number
//! - `reading`: `read_schedule`: the schedule that the tokens of a text spell, by number
//! - `printing`: `print_schedule`: the canonical text of a schedule by number
#![tactic(auto)]

pub mod check;
pub mod names;
pub mod places;
pub mod printing;
pub mod reading;
pub mod stages;
pub mod syntax;
pub mod text;

pub use check::{Accepted, VerifyFault, attribute_count, is_input, read_count, read_of, verify};
pub use names::ScheduleFault;
pub use places::{
    Standing, from_kid, from_parent, has_earlier_block, is_prev, is_same_block, is_same_rule,
};
pub use printing::print_schedule;
pub use reading::read_schedule;
pub use stages::{AttrList, Pass, Schedule, Stage};
pub use syntax::PassKind;
