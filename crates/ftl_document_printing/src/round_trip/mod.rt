//! The canonical text of a tree, that of its document in the canonical order, is read back: a law
//! takes a checked grammar and a tree of it within the limits of documents, and says that the text
//! has tokens, and that what is read of them is the tree. `specs/round_trip/ReadBack.antt` says
//! which trees; each tree that was read, by a grammar that was read, is one.

mod laws;

pub use laws::{printed_documents, read_documents};
