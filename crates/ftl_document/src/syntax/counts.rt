//! How many tokens and nodes a text has.

ghost use Rattle.std.specs.Prelude.{◌≡◌, ◌≤◌, length, count_by};
ghost use Rattle.ftl_tokens.specs.reading.Reader.{same_kind};
ghost use Rattle.ftl_document.specs.syntax.Read.{opened_in};

use ftl_tokens::{Kind, Token, WideScanned, place_in};

/// How many tokens there are. Each has a byte, and bytes are counted in 32 bits.
pub(crate) fn token_count(scanned: &WideScanned) -> u32
    ensures count { result ≡ length scanned.now.tokenized.tokens }
{
    let end = place_in(scanned.tokenized(), 0);
    scanned.list().len().min(end as usize) as u32
}

/// How many marks `{` there are.
pub(crate) fn node_count(scanned: &WideScanned) -> u32
    requires few { length scanned.now.tokenized.tokens ≤ 4294967295 }
    ensures count { result ≡ opened_in scanned.now.tokenized }
{
    opening_count(scanned.list()) as u32
}

#[tactic(auto, unfolding(ftl_tokens::specs::reading::Reader::same_kind))]
fn opening_count(tokens: &[Token]) -> usize
    ensures count { result ≡ count_by (λ t. same_kind t.kind Kind.LeftBrace) tokens.now }
{
    tokens
        .iter()
        .filter(|token| token.kind == Kind::LeftBrace)
        .count()
}
