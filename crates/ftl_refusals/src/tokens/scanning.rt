//! Texts as tokens.

use ftl_tokens::{Scanned, TokenFault, WideScanned, document_tokens, tokens};
use std::alloc::{AllocError, Global};

/// The most bytes of a text that is scanned: those of a page.
const MOST_BYTES: usize = 67108864;

/// The tokens of a grammar or a schedule; none of a text that has something else in it.
pub fn scanned_text(alloc: Global, text: &str) -> Result<Option<Scanned>, AllocError> {
    if text.len() > MOST_BYTES {
        return Ok(None);
    }
    match tokens(alloc, String::from_str(alloc, text)?) {
        Ok(scanned) => Ok(Some(scanned)),
        Err(TokenFault::OutOfMemory) => Err(AllocError),
        Err(_) => Ok(None),
    }
}

/// The tokens of a document, whose numbers are those of a page of 48 bits where it is `wide`.
pub fn scanned_document(
    alloc: Global,
    text: &str,
    wide: bool,
) -> Result<Option<WideScanned>, AllocError> {
    if text.len() > MOST_BYTES {
        return Ok(None);
    }
    let greatest = if wide { 140737488355327 } else { 2147483647 };
    match document_tokens(alloc, String::from_str(alloc, text)?, greatest) {
        Ok(scanned) => Ok(Some(scanned)),
        Err(TokenFault::OutOfMemory) => Err(AllocError),
        Err(_) => Ok(None),
    }
}
