//! Schedules that are accepted. Goes in: a grammar that `ftl_checked::grammars` accepted, what its
//! rules read, and a schedule of its computed attributes within the limits on passes. Comes out:
//! `Accepted`, the schedule with its grammar and the place of each attribute, or its first fault,
//! which `specs/FirstFault.antt` of `ftl_order::faults` defines.
//! `specs/check/AcceptedSchedule.antt` says what each accepted schedule is,
//! `specs/check/Accepted.antt` what follows for the trees of the grammar.

mod accepted;
mod check;
mod kinds;
mod laws;
mod missing;
mod unordered;

pub use crate::places::SchedulePlace;
pub use accepted::Accepted;
pub use check::verify;
pub use ftl_order::VerifyFault;
pub use kinds::{attribute_count, is_input};
pub use laws::faults_are_of_entries;
pub use missing::first_missing;
pub use unordered::{read_count, read_of, standing};
