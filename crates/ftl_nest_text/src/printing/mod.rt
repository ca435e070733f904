//! The canonical text of a schedule with nests whose attributes and hosts are numbers of a grammar.
//! Goes in: a grammar that `ftl_checked::grammars` accepted, and a schedule.
//! `specs/printing/NestWritten.antt` says which written schedule it stands for; `text` has the text
//! of that. A law says that it is read as the same schedule again.

mod laws;
mod print;

pub use laws::printed_nesting_schedules;
pub use print::print_schedule;
