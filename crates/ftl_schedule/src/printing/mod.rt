//! The canonical text of a schedule whose attributes are numbers of a grammar. Goes in: a grammar
//! that `ftl_checked::grammars` accepted, and a schedule. `specs/printing/WrittenOf.antt` says
//! which written schedule it stands for; `text` has the text of that.

mod laws;
mod print;

pub use laws::printed_schedules;
pub use print::{print_schedule, write_pass, write_passes};
