//! Schedules of attribute grammars, as definitions and laws without code: which reads a rule has,
//! when a schedule orders them, the automatic schedule, and that exactly one table solves the
//! equations of each tree. Goes in: the definitions of `ftl_model`.
//!
//! - `orders`: pairs, keys, ordered schedules, must precede, legal orders; exactly one table solves
//! - `worked`: grammars and schedules that were written out by hand, which `orders` is held against
//! - `dependencies`: what each rule reads, and which rule writes that first
//! - `steps`: a rule that runs at a node, and which instance it computes
//! - `faults`: the first fault of a schedule
//! - `automatic`: the automatic schedule, found exactly where some schedule is ordered
#![tactic(auto)]

pub mod automatic;
pub mod dependencies;
pub mod faults;
pub mod orders;
pub mod steps;
pub mod worked;

pub use dependencies::{DepRead, Form, Site};
pub use faults::{VerifyFault, faultless_is_ordered};
pub use orders::{reads_end_by_rank, values_are_in_range};
pub use steps::Step;
