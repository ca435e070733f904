//! A document in one flat list, in the order of its text.

use crate::syntax::name_ref::NameRef;

/// One entry of a document: a field, or a node in a list. What is written inside it stands right
/// behind it, `below` entries of it.
#[derive(Drop)]
pub enum WrittenRow<'a> {
    Number {
        name: NameRef<'a>,
        value: i64,
    },
    /// A field that is one node.
    Single {
        name: NameRef<'a>,
        class: NameRef<'a>,
        below: u32,
    },
    /// A field that is a list; its nodes follow.
    List {
        name: NameRef<'a>,
        below: u32,
    },
    /// A node in a list.
    Kid {
        class: NameRef<'a>,
        below: u32,
    },
}
