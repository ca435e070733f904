//! Edits as they are written.

use ftl_document::syntax::NameRef;
use sqlite_items::Items;

/// `NODE.NAME = VALUE;`
#[derive(Drop)]
pub struct WrittenEdit<'a> {
    /// The number of a node, which may be one that no tree has.
    pub node: u64,
    /// The name of an input.
    pub name: NameRef<'a>,
    pub value: i64,
}

/// Edits in the order of the text.
pub type WrittenEditList<'a> = Items<WrittenEdit<'a>>;
