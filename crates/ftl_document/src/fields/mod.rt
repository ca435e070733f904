//! What the names of a written document stand for. Goes in: a grammar that `ftl_checked::grammars`
//! accepted, and a node of a document of `syntax`. Comes out: the first fault of the node, or what
//! stands in each of its inputs and children. `specs/fields/OwnFields.antt` says how the fields of
//! a node are seen; the faults are those of `faults`.

mod class_check;
mod class_table;
mod field_rows;
mod laws;
mod node_fields;
mod own_field;

pub use class_check::known_class;
pub use class_table::{ClassFields, class_fields};
pub use field_rows::own_fields;
pub use laws::slots_hold_inputs;
pub use node_fields::{KnownNode, Slots};
pub use own_field::{FieldValue, OwnField};
