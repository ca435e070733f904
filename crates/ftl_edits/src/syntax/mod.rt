//! Edits as they are written. Goes in: the tokens of a text. Comes out: the edits that they spell,
//! in order, whose inputs are still names, or the place at which the tokens go wrong.
//! `specs/syntax/Spelling.antt` says which tokens spell which edits, and `specs/syntax/Read.antt`
//! what the reader answers.

mod fault;
mod laws;
mod read;
mod worked;
mod written;

pub use fault::WrittenEditsFault;
pub use laws::{one_place, one_written_list};
pub use read::read_written_edits;
pub use worked::{worked_edits, worked_places};
pub use written::{WrittenEdit, WrittenEditList};
