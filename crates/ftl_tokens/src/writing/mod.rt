//! Tokens go in, one after another, each with the white space behind it, and the text that they
//! are written as comes out. Laws lead back: a scan of the text finds just these tokens.
//! `specs/writing/Written.antt` says how a token is written, and which tokens are read as they were
//! written: the printers of grammars, schedules and documents stand on it.

mod laws;
mod write;

pub use laws::law_of_writing;
pub use write::{fixed_text, write_fixed, write_name, write_number};
