//! What written edits stand for. Goes in: edits by name, and a tree. Comes out: the edits by
//! number, or the first fault: too many, or an edit that names no node of the tree, or no input of
//! its node. `specs/meaning/Meaning.antt` defines both, and `specs/meaning/Editable.antt` says
//! which edits a tree can take.

mod fault;
mod find;
mod laws;
mod types;
mod worked;

pub use fault::EditFault;
pub use find::edits_of;
pub use laws::{edits_name_inputs, faults_are_of_edits};
pub use types::{Edit, EditList};
pub use worked::worked_meanings;
