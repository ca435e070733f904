//! What tokens say.

ghost use Rattle.std.specs.Prelude.{◌+◌, ◌^◌, ◌<◌, ◌↔◌, IsTrue};
ghost use Rattle.ftl_refusals.specs.tokens.Named.{Says, SaysPath};

use ftl_tokens::{Kind, TokenizedText};

/// The text of token `k`; no text behind the last one.
pub fn word_at(scanned: &TokenizedText, k: usize) -> &str {
    if k < scanned.list().len() {
        scanned.slice(k)
    } else {
        ""
    }
}

/// The kind of token `k`, if there is one.
pub fn kind_at(scanned: &TokenizedText, k: usize) -> Option<Kind> {
    match scanned.list().get(k) {
        Some(token) => Some(token.kind),
        None => None,
    }
}

/// Whether token `k` says the word.
pub fn says(scanned: &TokenizedText, k: usize, word: &str) -> bool
    ensures says { IsTrue result ↔ Says scanned.now word.now k }
{
    if k < scanned.list().len() {
        scanned.slice(k) == word
    } else {
        false
    }
}

/// Whether `owner.name` begins with token `k`.
pub fn says_path(scanned: &TokenizedText, k: usize, owner: &str, name: &str) -> bool
    requires few { k + 2 < 2 ^ 64 }
    ensures says { IsTrue result ↔ SaysPath scanned.now owner.now name.now k }
{
    says(scanned, k, owner) && says(scanned, k + 1, ".") && says(scanned, k + 2, name)
}
