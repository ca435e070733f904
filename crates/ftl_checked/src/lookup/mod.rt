//! Look-ups in a grammar, by name and by number. Goes in: a grammar as it is written. Comes out:
//! tables beside it, in which a name is found without a scan of the declarations, and what is known
//! of attributes, children and rules. `specs/lookup/Tables.antt` says what the tables of a grammar
//! are.

mod among;
mod attrs;
mod fields;
mod find;
mod kinds;
mod named;
mod scheduled;
mod tables;

pub use among::{copies, is_in, stands_before};
pub use attrs::attr_infos;
pub use fields::field_in;
pub use find::{
    FoundAttr, FoundChild, child, child_of, class, class_attr, class_table, interface,
    interface_table, own_attr, shared_attr,
};
pub use kinds::inherits;
pub use named::{attr_name, name_of, owner_name, rule_name};
pub use scheduled::attribute_in;
pub use tables::{
    ClassTable, InterfaceTable, Tables, build_tables, interface_named, interface_number, shared,
};
