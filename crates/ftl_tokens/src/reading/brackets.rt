//! The search for a token at which too many brackets are open.

ghost use Rattle.std.specs.Prelude.{◌≡◌, ◌<◌, ◌+◌, if◌then◌else◌, MatchOption};
ghost use Rattle.std.specs.List.{list_any};
ghost use Rattle.ftl_tokens.specs.scanner.Tokenized.{symbols_of};
ghost use Rattle.ftl_tokens.specs.reading.Reader.{same_kind};
ghost use Rattle.ftl_tokens.specs.reading.Depth.{brackets_of, IsShallow, IsTooDeepAt};

use crate::scanner::{Kind, Scanned, TokenizedText};

/// The start of the first token at which more than `limit` brackets are open, where `opening` are
/// the marks that open one and `closing` those that close one.
pub fn first_too_deep_in(
    scanned: &TokenizedText,
    opening: &[Kind],
    closing: &[Kind],
    limit: usize,
) -> Option<u32>
    ensures first { MatchOption result
        (IsShallow (brackets_of opening.now closing.now) limit (symbols_of scanned.now))
        (λ at. IsTooDeepAt (brackets_of opening.now closing.now) limit scanned.now at) }
{
    let mut opened = 0;
    let mut closed = 0;
    for token in scanned.list() {
        opened = counted(opened, opening, token.kind);
        closed = counted(closed, closing, token.kind);
        if opened.saturating_sub(closed) > limit {
            return Some(token.start);
        }
    }
    None
}

/// `first_too_deep_in` of a text with narrow numbers.
pub fn first_too_deep(
    scanned: &Scanned,
    opening: &[Kind],
    closing: &[Kind],
    limit: usize,
) -> Option<u32>
    ensures first { MatchOption result
        (IsShallow (brackets_of opening.now closing.now) limit (symbols_of scanned.now))
        (λ at. IsTooDeepAt (brackets_of opening.now closing.now) limit scanned.now at) }
{
    first_too_deep_in(scanned.tokenized(), opening, closing, limit)
}

fn counted(count: usize, kinds: &[Kind], kind: Kind) -> usize
    requires few { count < usize.MAX }
    ensures count { result ≡ (if list_any (same_kind kind) kinds.now then count + 1 else count) }
{
    if is_among(kinds, kind) {
        count + 1
    } else {
        count
    }
}

#[tactic(auto, unfolding(crate::specs::reading::Reader::same_kind))]
fn is_among(kinds: &[Kind], kind: Kind) -> bool
    ensures among { result ≡ list_any (same_kind kind) kinds.now }
{
    kinds.iter().any(|other| kind == *other)
}
