//! What reads an instance. Goes in: a tree of a checked grammar with the readers of each
//! attribute, a table that is made once, and an instance. Comes out: the keys of just the steps
//! that read it, into the set of those that wait; `specs/readers/Readers.antt` has the words.

mod add;
mod kids;
mod lists;
mod reader;
mod seen;
mod table;

pub(crate) use add::{ReaderSite, add_readers, told_instance};
pub(crate) use reader::Reader;
pub(crate) use table::all_readers;
