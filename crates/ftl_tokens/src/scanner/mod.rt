//! A text goes in and its tokens come out, each with its kind and its place in bytes, or the first
//! place at which the text goes wrong. Names, numbers, reserved words and marks are tokens; white
//! space and comments stand between them. `specs/scanner/Kinds.antt` says which texts are tokens,
//! `specs/scanner/Scan.antt` which tokens a text has, and `specs/scanner/Tokenized.antt` what
//! readers see of it.

mod fault;
mod kind;
mod laws;
mod name;
mod piece;
mod run;
mod scan;
mod scanned;
mod tokenized;
mod word;

pub use fault::TokenFault;
pub use kind::{Kind, Token};
pub use laws::law_of_scan;
pub use name::Name;
pub use scan::{document_tokens, tokens};
pub use scanned::{Scanned, WideScanned};
pub use tokenized::TokenizedText;
