//! The fields of a node, without what stands below them.

use crate::syntax::NameRef;

/// What stands in a field.
#[derive(Clone, Copy, Debug, PartialEq, Eq)]
pub enum FieldValue {
    Number(i64),
    Node,
    List,
}

/// A field of a node.
#[derive(Drop)]
pub struct OwnField<'a> {
    pub name: NameRef<'a>,
    pub value: FieldValue,
}
