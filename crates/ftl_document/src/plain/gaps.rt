//! White space and comments.

ghost use Rattle.std.specs.Prelude.{◌≡◌, ℕ, ◌≤◌, drop, length};
ghost use Rattle.std.specs.Str.{IsUtf8, IsCharBoundary};
ghost use Rattle.ftl_document.specs.plain.Plain.{plain_tokens};
ghost use Rattle.ftl_document.specs.plain.Found.{IsGapless};

use crate::plain::bytes::is_white;
use crate::plain::runs::comment_length;

/// How many bytes the white space and the comments at the front have, as far as they are ASCII.
#[inline(always)]
pub(crate) fn gap_length(bytes: &[u8]) -> usize
    ensures boundary { IsUtf8 bytes.now → IsCharBoundary bytes.now result }
    ensures within { result ≤ length bytes.now }
    ensures same { (greatest : ℕ) → plain_tokens greatest bytes.now
        ≡ plain_tokens greatest (drop result bytes.now) }
    ensures gapless { IsGapless (drop result bytes.now) }
{
    let mut at = 0;
    while at < bytes.len() {
        let byte = bytes[at];
        if is_white(byte) {
            at += 1;
        } else if byte == b'#' {
            at += 1 + comment_length(&bytes[at + 1..]);
        } else {
            return at;
        }
    }
    at
}
