//! What an expression reads. Goes in: an expression of `ftl_grammar::syntax`. Comes out: the names
//! that its formula reads, in the order of the text, borrowed.

mod read_ref;
mod reading;

pub use read_ref::{ReadKind, ReadRef};
pub use reading::reads;
