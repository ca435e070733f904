//! Texts as tokens, and back. Goes in: a text. Comes out: its tokens, each with its kind and its
//! place in bytes, or the first place at which the text goes wrong; cursors that readers of tokens
//! share; and texts that are written token by token.
//!
//! - `scanner`: `tokens`, `document_tokens`: the longest tokens from the left, or the first fault
//! - `reading`: what readers of token lists share: readers, depth of brackets, places of faults
//! - `writing`: tokens written one after another, which a scan finds again
#![tactic(auto)]

pub mod reading;
pub mod scanner;
pub mod writing;

pub use reading::{
    ChainItem, Input, ReadFault, WideInput, first_too_deep, first_too_deep_in, place, place_in,
};
pub use scanner::{
    Kind, Name, Scanned, Token, TokenFault, TokenizedText, WideScanned, document_tokens, tokens,
};
pub use writing::{write_fixed, write_name, write_number};
