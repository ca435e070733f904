//! The automatic schedule, by rows of what attributes need in each kind of pass. Goes in: rows that
//! `specs/outcomes/Constraint.antt` says the meaning of. Comes out: the automatic schedule of each
//! grammar that the rows are of, or the attributes that are left where it is stuck.

mod laws;
mod next;
mod outcome;
mod passes;

pub use laws::rows_give_lists;
pub use next::{Tables, next_pass};
pub use outcome::{Outcome, find_outcome};
pub use passes::find_passes;
