//! The attributes and hosts that a schedule names. Goes in: a grammar that `ftl_checked::grammars`
//! accepted, and a schedule as it is written. Comes out: the schedule by number, or the first of:
//! an attribute that names no computed one, a host that is no class, a nest that is not closed, an
//! attribute on the wrong side of a nest. `specs/names/NestNamed.antt` defines both, and
//! `specs/names/RegionTests.antt` the tests that it takes.

mod inner;
mod laws;
mod named;

pub use laws::{one_naming, tests_of_regions};
pub use named::nesting_schedule_named;
