//! Names in order, each found by its text in one look-up. Goes in: a list of names, in which some
//! may stand twice. Comes out: `NameTable`, which contracts see as that list; `place` gives the
//! first place of a name, with std's words on lists.

mod table;

pub use table::NameTable;
