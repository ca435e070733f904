//! Edits of a tree, read from tokens. Goes in: a tree of a grammar that `ftl_checked::grammars`
//! accepted, and the tokens of a text. Comes out: the edits by number, in order, or the first
//! fault: the place at which the tokens go wrong, too many edits, an edit that names no node or no
//! input.
//! `specs/reading/Read.antt` says which edits or fault are the answer.

mod laws;
mod read;

pub use laws::one_edit_list;
pub use read::read_edits;
