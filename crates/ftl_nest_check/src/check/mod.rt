//! Schedules with nests that are accepted. Goes in: a grammar that `ftl_checked::grammars`
//! accepted, what its rules read, and a schedule of its computed attributes within the limits on
//! passes that keeps the sides of its nests. Comes out: `AcceptedNests`, the schedule with its
//! grammar, the place of each attribute and the accepted schedule without nests that gives each
//! tree the same values; or its first fault, which `specs/check/NestFault.antt` defines. An
//! accepted schedule without nests needs no second check: `accepted_plain`.

mod accepted;
mod check;
mod flat_accepted;
mod laws;
mod plain;
mod unordered;
mod worked;

pub use accepted::AcceptedNests;
pub use check::verify_nests;
pub use laws::{faultless_is_nest_ordered, nest_faults_are_of_entries};
pub use plain::accepted_plain;
pub use worked::first_nest_faults;
