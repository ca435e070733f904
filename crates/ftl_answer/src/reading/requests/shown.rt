//! What may be shown of a table.

use ftl_tokens::Name;

/// What is shown of a table.
#[derive(Drop)]
pub enum Shown {
    /// Its boxes.
    Boxes,
    /// Its summary, by the name of the grammar.
    Summary(Name),
}
