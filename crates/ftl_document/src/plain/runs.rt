//! How far a word or a comment goes on.

ghost use Rattle.std.specs.Prelude.{◌≡◌};
ghost use Rattle.std.specs.List.{prefix_len};
ghost use Rattle.ftl_tokens.specs.scanner.Run.{byte_goes_on};
ghost use Rattle.ftl_tokens.specs.declared.scanner.run.Run.TheVariants.{Word, Comment};

use crate::plain::bytes::{goes_on_word, stays_in_line};

/// How many bytes at the front go on a word.
#[inline(always)]
pub(crate) fn word_length(bytes: &[u8]) -> usize
    ensures length { result ≡ prefix_len (byte_goes_on Word) bytes.now }
{
    for (at, &byte) in bytes.iter().enumerate() {
        if !goes_on_word(byte) {
            return at;
        }
    }
    bytes.len()
}

/// How many ASCII bytes at the front go on a comment.
#[inline(never)]
pub(crate) fn comment_length(bytes: &[u8]) -> usize
    ensures length { result ≡ prefix_len (byte_goes_on Comment) bytes.now }
{
    for (at, &byte) in bytes.iter().enumerate() {
        if !stays_in_line(byte) {
            return at;
        }
    }
    bytes.len()
}
