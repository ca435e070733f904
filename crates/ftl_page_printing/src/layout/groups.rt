//! How long tokens are in one line, and what stands between two brackets.

ghost use Rattle.std.specs.Prelude.{◌≤◌};

use crate::layout::gaps::{Manner, closes, opens, space_between};
use ftl_tokens::Token;
use std::alloc::{AllocError, Global};

/// A bracket that is open, and the byte at which it begins where all stands in one line.
#[derive(Clone, Copy, Debug)]
struct Open {
    place: usize,
    start: usize,
}

/// Of each token how many bytes it has; of a bracket that opens, up to the one that closes it, in
/// one line.
pub fn lengths_of(
    alloc: Global,
    tokens: &[Token],
    manner: Manner,
) -> Result<Vec<usize>, AllocError> {
    let mut lengths = Vec::with_capacity(alloc, tokens.len())?;
    let mut open = Vec::new(alloc);
    let mut end: usize = 0;
    for (place, token) in tokens.iter().enumerate() {
        let start = end.saturating_add(space_before(tokens, place, manner));
        let length = (token.end as usize).saturating_sub(token.start as usize);
        end = start.saturating_add(length);
        lengths.push(length)?;
        if opens(token.kind) {
            open.push(Open { place, start })?;
        } else if closes(token.kind) {
            close(&mut lengths, open.pop(), end);
        }
    }
    Ok(lengths)
}

/// How many spaces stand before a token in one line.
pub fn space_before(tokens: &[Token], place: usize, manner: Manner) -> usize
    ensures one { result ≤ 1 }
{
    match (tokens.get(place.wrapping_sub(1)), tokens.get(place)) {
        (Some(before), Some(token)) => space_between(manner, before.kind, token.kind),
        _ => 0,
    }
}

/// Ends what an open bracket begins.
fn close(lengths: &mut Vec<usize>, open: Option<Open>, end: usize) {
    if let Some(Open { place, start }) = open
        && let Some(length) = lengths.get_mut(place)
    {
        *length = end.saturating_sub(start);
    }
}
