//! What an expression reads, by name.

use ftl_tokens::Name;

/// What an expression reads.
#[derive(Drop)]
pub enum ReadName {
    /// An attribute of the node itself: `self`.
    Own(Name),
    /// An attribute of the kid at hand: `this`.
    This(Name),
    /// An attribute of the kid before: `prev`.
    Prev(Name),
    /// An attribute of the child with the first name.
    Of(Name, Name),
    /// An attribute of the last kid of the child with the first name: `last`.
    Last(Name, Name),
    /// What a fold computed so far: `acc`.
    Acc,
}
