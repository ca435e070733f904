//! Tokens of a section's text. Goes in: a text, or its tokens and a word. Comes out: the tokens,
//! what one of them says, and the first from a place on that says so.
//! `specs/tokens/Named.antt` says when a token says a word.

mod finding;
mod scanning;
mod words;

pub use finding::{first_named, first_path};
pub use scanning::{scanned_document, scanned_text};
pub use words::{kind_at, says, word_at};
