//! The nodes of a written document, one after another. Goes in: a grammar that
//! `ftl_checked::grammars` accepted, and a document of `syntax`. Comes out: the rows of the
//! document's tree with its inputs, as `ftl_tree::rows` has them, or the first fault of the
//! document. The faults are those of `faults`; `specs/nodes/Walk.antt` says what is left of a
//! document while its nodes are looked at, and `specs/nodes/NodeRows.antt` which rows and inputs
//! are those of its nodes.

mod all_nodes;
mod class_tables;
mod entering;
mod progress;
mod stack;
mod walk;

pub(crate) use all_nodes::MOST_INSTANCES;
pub use all_nodes::{DocumentNodes, document_nodes};
pub(crate) use class_tables::{ClassTable, class_tables};
