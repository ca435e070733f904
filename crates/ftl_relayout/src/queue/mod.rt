//! Cells computed anew after a change, by a queue: the least key first, and then what reads a
//! cell whose value has changed. Goes in: a set of rules, the values with the changed inputs, and
//! the keys of the steps that read one. Comes out: the values that hold, with a trail of what was
//! computed, by which all can be taken back. `specs/queue/Nets.antt` says what rules are asked to
//! be.

mod later;
mod laws;
mod near;
mod rules;
mod run;
mod trail;
mod waiting;

pub use laws::touched_depend;
pub use rules::Rules;
pub use run::run_all;
pub use trail::{Before, is_same, undo};
pub use waiting::Waiting;
