//! The places of tokens.

ghost use Rattle.std.specs.Prelude.{◌≡◌, ◌-◌, length};
ghost use Rattle.ftl_tokens.specs.reading.Place.{place_of};

use crate::scanner::{Scanned, TokenizedText};

/// The byte at which the last `left` tokens of the text begin. Where there are none, it is the end
/// of the last token, or 0 where the text has no token.
pub fn place_in(scanned: &TokenizedText, left: usize) -> u32
    ensures place { result ≡ place_of scanned.now.tokens (length scanned.now.tokens - left) }
{
    let list = scanned.list();
    let count = list.len();
    let read = count.saturating_sub(left);
    if read < count {
        list[read].start
    } else if count > 0 {
        list[count - 1].end
    } else {
        0
    }
}

/// `place_in` of a text with narrow numbers.
pub fn place(scanned: &Scanned, left: usize) -> u32
    ensures place { result ≡ place_of scanned.now.tokens (length scanned.now.tokens - left) }
{
    place_in(scanned.tokenized(), left)
}
