//! The texts of schedules whose passes may nest one that runs inside each node of a class. Goes in:
//! a grammar that `ftl_checked` accepted, and the tokens of a text or a schedule by number. Comes
//! out: the schedule by number or the first fault of its text; and of a schedule its canonical
//! text, which is read as the same schedule again.
//!
//! - `syntax`: `read_nesting_schedule`: the schedule that tokens spell, by names
//! - `text`: the canonical text of a schedule by names
//! - `names`: `nesting_schedule_named`: the attributes and hosts that a schedule names, by number
//! - `reading`: `read_schedule`: the schedule that the tokens of a text spell, by number
//! - `printing`: `print_schedule`: the canonical text of a schedule by number
#![tactic(auto)]

pub mod names;
pub mod printing;
pub mod reading;
pub mod syntax;
pub mod text;

pub use printing::print_schedule;
pub use reading::read_schedule;
