//! Edits of a tree's inputs. Goes in: a tree of a checked grammar, and the tokens of a text. Comes
//! out: the edits that the tokens spell, each by the numbers of its node and its input, or the
//! first fault, of the text and then of the edits in order.
//!
//! - `syntax`: `read_written_edits`: the edits that tokens spell, by name
//! - `meaning`: what written edits stand for at a tree, and the first fault
//! - `reading`: `read_edits`: the edits of a tree, or the first fault
#![tactic(auto)]

pub mod meaning;
pub mod reading;
pub mod syntax;

pub use meaning::{Edit, EditFault, EditList};
pub use reading::read_edits;
