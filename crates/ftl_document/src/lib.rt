//! Documents of a grammar. Goes in: a grammar that `ftl_checked` accepted, and the tokens of a
//! text. Comes out: the one tree that they mean, or the first fault, of the text and then of the
//! nodes in preorder.
//!
//! - `syntax`: `read_written_document`: the document that tokens spell, as flat rows by name
//! - `plain`: `rows_of_text`: the same from the bytes of a text that is plain
//! - `faults`: the first fault of a document, and the tree that it means
//! - `fields`: what the names of one node stand for
//! - `nodes`: `document_nodes`: the nodes of a document, by one walk
//! - `pass`: the nodes of a document by one pass over the bytes of its text, where it is good
//! - `reading`: `read_document`: the tree of a document, or its first fault; `tree_of_written`: the
//!   same of a document that is written, without a text
#![tactic(auto)]

pub mod faults;
pub mod fields;
pub mod nodes;
pub mod pass;
pub mod plain;
pub mod reading;
pub mod syntax;

pub use faults::{DocFault, faultless_documents_are_trees, trees_are_written};
pub use nodes::document_nodes;
pub use pass::passed_nodes;
pub use plain::rows_of_text;
pub use reading::{nodes_of_text, read_document, read_plain_document, tree_of_written};
pub use syntax::{WrittenDocument, WrittenRow, read_written_document};
