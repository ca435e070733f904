//! The automatic schedule of a checked grammar. Goes in: a grammar that `ftl_checked::grammars`
//! accepted, and what its rules read. Comes out: the automatic schedule, accepted, or the
//! attributes that are left where there is none. `specs/finding/Entered.antt` says what rows of
//! constraints have while the reads of rules are entered.

mod computed;
mod constraint;
mod enter;
mod fault;
mod find;
mod tables;

pub use fault::FindFault;
pub use find::find_schedule;
pub use tables::tables_of;
