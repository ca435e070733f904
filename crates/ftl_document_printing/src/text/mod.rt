//! The canonical text of a document. Goes in: a document by names. Comes out:
//! `specs/text/DocumentText.antt`, the tokens that are written and the white space behind each.
//! Laws lead back: a scan of the text finds these tokens, and they spell the document, as deep and
//! with as many braces as it has nodes.

mod laws;
mod worked;
mod write;

pub use laws::{canonical_documents, shallow_documents};
pub use worked::canonical_texts_by_hand;
pub use write::{write_field, write_integer, write_mark, write_open};
