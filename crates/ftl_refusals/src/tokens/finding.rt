//! Tokens, found by what they say.

ghost use Rattle.ftl_refusals.specs.tokens.Named.{FirstFrom, Says, SaysPath};

use crate::tokens::words::{says, says_path};
use ftl_tokens::TokenizedText;

/// The first token from `from` on that says the word.
pub fn first_named(scanned: &TokenizedText, from: usize, word: &str) -> Option<usize>
    ensures first { FirstFrom from (Says scanned.now word.now) result }
{
    for k in from..scanned.list().len() {
        if says(scanned, k, word) {
            return Some(k);
        }
    }
    None
}

/// The first token from `from` on with which `owner.name` begins.
pub fn first_path(scanned: &TokenizedText, from: usize, owner: &str, name: &str) -> Option<usize>
    ensures first { FirstFrom from (SaysPath scanned.now owner.now name.now) result }
{
    for k in from..scanned.list().len() {
        if says_path(scanned, k, owner, name) {
            return Some(k);
        }
    }
    None
}
