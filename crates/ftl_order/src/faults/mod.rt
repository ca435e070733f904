//! The first fault of a schedule. Goes in: a grammar with its names gone, of `ftl_model::layout`,
//! with the reads and writers of `dependencies`, and a schedule of `orders`. Comes out:
//! `specs/faults/OrderedReads.antt`, the table of ordered reads as tests;
//! `specs/faults/FirstFault.antt`, the first fault. There is no code here but the type of faults,
//! and laws: a schedule has no fault exactly where it is ordered.

mod fault;
mod laws;
mod worked;

pub use fault::VerifyFault;
pub use laws::{faultless_is_ordered, one_writer_tells};
pub use worked::{accepted_schedules, faults_of_entries, faults_of_pairs};
