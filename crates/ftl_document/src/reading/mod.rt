//! Documents of a grammar, read from tokens. Goes in: a grammar that `ftl_checked::grammars`
//! accepted, and the tokens of a text. Comes out: the tree that the text means, or the first fault:
//! too many open braces, too many nodes, the place at which the tokens go wrong, a node's fault,
//! too many attributes. `specs/reading/ReadTree.antt` says which tree or fault is the answer.
//! `tree_of_written` does the same of a document that is written already, by calls.

mod laws;
mod plain;
mod read;
mod written;

pub use laws::one_tree;
pub use plain::{nodes_of_text, read_plain_document};
pub use read::read_document;
pub use written::tree_of_written;
