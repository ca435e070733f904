//! Texts that say the same.

ghost use Rattle.std.specs.Prelude.{◌≡◌, Some, option_map, slice_get, string_bytes};
ghost use Rattle.std.specs.Prelude.{IfOk, IfSome, IsTrue};
ghost use Rattle.ftl_tokens.specs.scanner.Scan.{scan};
ghost use Rattle.ftl_tokens.specs.scanner.Tokenized.{IsGreatestNumber, symbol, symbols_of};
ghost use Rattle.ftl_page_printing.specs.pages.Alike.{SaysSame, SaysSameIfAny};

use ftl_page::Text;
use ftl_tokens::{Kind, TokenFault, TokenizedText, WideScanned, document_tokens};
use std::alloc::{AllocError, Global};

/// How many bytes a text has at most whose tokens are asked for.
const MOST_BYTES: usize = 67108864;

/// Whether both texts are there and have the same tokens, no number above `greatest`, or neither is
/// there.
pub fn are_same(
    alloc: Global,
    text: Option<Text>,
    other: &Option<String>,
    greatest: u64,
) -> Result<bool, AllocError>
    requires limit { IsGreatestNumber greatest }
    ensures same { IfOk result (λ same. IsTrue same
        → SaysSameIfAny greatest text (option_map string_bytes other.now)) }
{
    match other {
        Some(other) => is_same(alloc, text, other.as_str(), greatest),
        None => Ok(text.is_none()),
    }
}

/// Whether a text is there and has the tokens of another one, no number above `greatest`.
pub fn is_same(
    alloc: Global,
    text: Option<Text>,
    other: &str,
    greatest: u64,
) -> Result<bool, AllocError>
    requires limit { IsGreatestNumber greatest }
    ensures same { IfOk result
        (λ same. IsTrue same → SaysSameIfAny greatest text (Some other.now)) }
{
    match text {
        Some(text) => have_same_tokens(alloc, text, other, greatest),
        None => Ok(false),
    }
}

/// Whether two texts have the same tokens, no number above `greatest`.
pub fn have_same_tokens(
    alloc: Global,
    text: Text,
    other: &str,
    greatest: u64,
) -> Result<bool, AllocError>
    requires limit { IsGreatestNumber greatest }
    ensures same { IfOk result (λ same. IsTrue same → SaysSame greatest text other.now) }
{
    let Some(one) = scanned(alloc, text.into_string(), greatest)? else {
        return Ok(false);
    };
    let Some(two) = scanned(alloc, String::from_str(alloc, other)?, greatest)? else {
        return Ok(false);
    };
    Ok(are_alike(one.tokenized(), two.tokenized()))
}

/// A text with its tokens; none where it has a fault, or is longer than a page.
pub fn scanned(
    alloc: Global,
    text: String,
    greatest: u64,
) -> Result<Option<WideScanned>, AllocError>
    requires limit { IsGreatestNumber greatest }
    ensures tokens { IfOk result (λ s. IfSome s
        (λ s. scan greatest (string_bytes text) ≡ Ok s.tokenized.tokens)) }
    ensures text { IfOk result (λ s. IfSome s (λ s. s.tokenized.text ≡ string_bytes text)) }
{
    if text.len() > MOST_BYTES {
        return Ok(None);
    }
    match document_tokens(alloc, text, greatest) {
        Ok(scanned) => Ok(Some(scanned)),
        Err(TokenFault::OutOfMemory) => Err(AllocError),
        Err(_) => Ok(None),
    }
}

/// Whether the tokens say the same.
fn are_alike(one: &TokenizedText, two: &TokenizedText) -> bool
    ensures alike { IsTrue result → symbols_of one.now ≡ symbols_of two.now }
{
    if one.list().len() != two.list().len() {
        return false;
    }
    for k in 0..one.list().len() {
        if !are_alike_at(one, two, k) {
            return false;
        }
    }
    true
}

/// Whether two tokens say the same.
fn are_alike_at(one: &TokenizedText, two: &TokenizedText, k: usize) -> bool
    ensures alike { IsTrue result
        → slice_get (symbols_of one.now) k ≡ slice_get (symbols_of two.now) k }
{
    let (Some(token), Some(other)) = (said_at(one, k), said_at(two, k)) else {
        return false;
    };
    token.kind == other.kind && token.text == other.text
}

/// A token, by its kind and its text.
#[derive(Clone, Copy)]
struct Said<'t> {
    kind: Kind,
    text: &'t str,
}

/// What token `k` says, if there is one.
fn said_at(text: &TokenizedText, k: usize) -> Option<Said<'_>>
    ensures says { IfSome result
        (λ s. slice_get (symbols_of text.now) k ≡ Some (symbol s.kind s.text.now)) }
{
    match text.list().get(k) {
        Some(token) => Some(Said {
            kind: token.kind,
            text: text.slice(k),
        }),
        None => None,
    }
}
