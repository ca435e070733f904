//! Pages. Goes in: rules, the text of a document, and numbers for inputs. Comes out: `Page`, which
//! contracts see as its rules, its tree, the edits that are not laid out yet, and the values where
//! it was laid out: `specs/pages/PageState.antt`. `laying` lays it out, `editing` changes inputs
//! and lays out anew, `showing` tells values and boxes, `attributes` what a node has, `instances`
//! numbers the attributes of nodes, `reads` tells what these read and which rules compute them,
//! `documents` has the document as a text and the edits of a text, and `nodes` has an iterator over
//! the nodes.

mod attributes;
mod documents;
mod editing;
mod instances;
mod laying;
mod nodes;
mod page;
mod places;
mod reads;
mod showing;

pub(crate) use attributes::is_number;
pub use nodes::{Node, Nodes};
pub use page::Page;
pub(crate) use page::of_tree;
pub use reads::Reads;
