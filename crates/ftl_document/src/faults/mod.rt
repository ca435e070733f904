//! The first fault of a document, and the tree that it means. Goes in: a lawful grammar as it is
//! written, of `ftl_grammar::syntax`, and a document as it is written, of `syntax`. Comes out:
//! `specs/faults/FirstFault.antt`, the first fault of its nodes; `specs/faults/DocumentTree.antt`,
//! the tree with the names gone. There is no code here but the type of faults, and laws.

mod fault;
mod laws;
mod worked;

pub use fault::DocFault;
pub use laws::{faultless_documents_are_trees, faults_are_of_nodes, trees_are_written};
pub use worked::{
    canonical_documents, documents_without_a_fault, faults_before_others, faults_of_fields,
    faults_of_nodes, faults_of_order, missing_fields, trees_of_documents,
};
