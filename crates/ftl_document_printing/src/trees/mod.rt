//! The canonical text of a tree. Goes in: a tree of a checked grammar. Comes out: the text of the
//! tree's document in the canonical order that `WrittenOf` of `ftl_document::faults` defines,
//! as `specs/text/DocumentText.antt` writes it. `round_trip` has the law
//! that leads back: what is read of the text is the tree.

mod inputs;
mod print;
mod writer_place;

pub use print::print_document;
