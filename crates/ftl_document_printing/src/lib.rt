//! The canonical text of a tree. Goes in: a tree of a checked grammar. Comes out: the text of its
//! document, which is read as the same tree again.
//!
//! - `text`: the canonical text of a document by names
//! - `trees`: `print_document`: the canonical text of a tree
//! - `round_trip`: what is read of that text is the tree
#![tactic(auto)]

pub mod round_trip;
pub mod text;
pub mod trees;

pub use trees::print_document;
