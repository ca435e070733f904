//! The limits of a plan. Goes in: a schedule that was accepted, and a tree. Comes out: the first
//! stage whose steps read too much, or the first step that does, as
//! `specs/limits/faults/PlanFaults.antt` has them.

mod bound;
mod fault;
mod laws;
mod limits;
mod reads;
mod worked;

pub use crate::limits::reads::ReadTables;
pub use fault::PlanFault;
pub use laws::faults_are_of_stages;
pub use limits::first_fault;
pub use worked::limits_on_reads;
