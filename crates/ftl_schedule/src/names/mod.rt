//! The attributes that a schedule names. Goes in: a grammar that `ftl_checked::grammars` accepted,
//! and a schedule as it is written. Comes out: the schedule with its attributes by number, or the
//! first one that names no computed attribute. `specs/names/Named.antt` defines both.

mod fault;
mod named;

pub use fault::ScheduleFault;
pub use named::{attributes_named, schedule_named, stages_named};
