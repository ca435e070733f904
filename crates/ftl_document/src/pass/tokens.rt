//! What plain bytes begin with, and what is left behind it.

ghost use Rattle.std.specs.Prelude.{◌≡◌, ℕ, ◌+◌, ◌≤◌, [], ◌∷◌, length, take, min, IfSome, IsTrue, pos, neg_ℤ};
ghost use Rattle.std.specs.List.{prefix_len};
ghost use Rattle.std.specs.Str.Parse.{digits_value};
ghost use Rattle.ftl_tokens.specs.declared.scanner.run.Run.TheVariants.{Digits};
ghost use Rattle.ftl_tokens.specs.scanner.Run.{byte_goes_on};
ghost use Rattle.ftl_tokens.specs.scanner.Tokenized.{name, fixed};
ghost use Rattle.ftl_document.specs.plain.Plain.{plain_tokens};
ghost use Rattle.ftl_document.specs.plain.Found.{IsGapless};
ghost use Rattle.ftl_document.specs.pass.Good.{IsPlainName};
ghost use Rattle.ftl_document.specs.pass.Parts.{Begins, IsInputBefore, IsNumberBefore, IsWordEnd};

use crate::plain::{gap_length, goes_on_word, is_digit, plain_mark};
use ftl_tokens::Kind;

/// A number, and the bytes behind it.
#[derive(Clone, Copy)]
pub(crate) struct NumberAt<'a> {
    pub(crate) value: u64,
    pub(crate) rest: &'a [u8],
}

/// The number of an input, and the bytes behind it.
#[derive(Clone, Copy)]
pub(crate) struct InputAt<'a> {
    pub(crate) value: i64,
    pub(crate) rest: &'a [u8],
}

/// The bytes behind one blank, which is what mostly stands between two tokens.
#[inline(always)]
fn past_blank<'a>(bytes: &'a [u8]) -> &'a [u8]
    ensures same { (greatest : ℕ) → plain_tokens greatest bytes.now
        ≡ plain_tokens greatest result.now }
{
    if !bytes.is_empty() && bytes[0] == b' ' {
        &bytes[1..]
    } else {
        bytes
    }
}

/// The bytes behind white space and comments.
#[inline(never)]
fn past_far<'a>(bytes: &'a [u8]) -> &'a [u8]
    ensures same { (greatest : ℕ) → plain_tokens greatest bytes.now
        ≡ plain_tokens greatest result.now }
    ensures gapless { IsGapless result.now }
{
    &bytes[gap_length(bytes)..]
}

/// The same. No byte above `#` begins white space or a comment.
#[inline(always)]
#[tactic(auto, using(crate::proofs::pass::Starts::high_gapless))]
pub(crate) fn past_gap<'a>(bytes: &'a [u8]) -> &'a [u8]
    ensures same { (greatest : ℕ) → plain_tokens greatest bytes.now
        ≡ plain_tokens greatest result.now }
    ensures gapless { IsGapless result.now }
{
    let rest = past_blank(bytes);
    if !rest.is_empty() && rest[0] > b'#' {
        return rest;
    }
    past_far(rest)
}

/// Whether the bytes begin with these.
#[inline(always)]
fn begins_with(bytes: &[u8], front: &[u8]) -> bool
    ensures front { IsTrue result → take (length front.now) bytes.now ≡ front.now }
    ensures within { IsTrue result → length front.now ≤ length bytes.now }
{
    if bytes.len() < front.len() {
        return false;
    }
    for (at, &byte) in front.iter().enumerate() {
        if bytes[at] != byte {
            return false;
        }
    }
    true
}

/// Whether no word goes on here.
#[inline(always)]
fn is_word_end(bytes: &[u8]) -> bool
    ensures end { IsTrue result → IsWordEnd bytes.now }
{
    bytes.is_empty() || !goes_on_word(bytes[0])
}

/// What is left behind this name.
#[inline(always)]
#[tactic(auto, using(crate::proofs::pass::Starts::name_past))]
pub(crate) fn past_name<'a>(bytes: &'a [u8], text: &[u8]) -> Option<&'a [u8]>
    requires plain { IsPlainName text.now }
    ensures name { IfSome result (λ rest. Begins bytes.now (name text.now ∷ []) rest.now) }
{
    let word = past_gap(bytes);
    if !begins_with(word, text) {
        return None;
    }
    let rest = &word[text.len()..];
    if !is_word_end(rest) {
        return None;
    }
    Some(rest)
}

#[inline(always)]
fn is_same(found: Kind, kind: Kind) -> bool
    ensures same { IsTrue result → found ≡ kind }
{
    found == kind
}

/// What is left behind a mark.
#[inline(always)]
pub(crate) fn past_mark<'a>(bytes: &'a [u8], kind: Kind) -> Option<&'a [u8]>
    ensures mark { IfSome result (λ rest. Begins bytes.now (fixed kind ∷ []) rest.now) }
{
    let at = past_gap(bytes);
    if at.is_empty() {
        return None;
    }
    match plain_mark(at[0], &at[1..]) {
        Some(found) if is_same(found, kind) => Some(&at[1..]),
        _ => None,
    }
}

/// The number of so many digits, which is cut at `greatest` and one, where it is at most `greatest`.
#[inline(always)]
#[tactic(auto, using(crate::proofs::pass::Starts::number_past))]
fn number_of<'a>(digits: &'a [u8], value: u64, length: usize, greatest: u64) -> Option<NumberAt<'a>>
    requires limit { greatest ≤ 140737488355327 }
    requires gapless { IsGapless digits.now }
    requires length { length ≡ prefix_len (byte_goes_on Digits) digits.now }
    requires value { value ≡ min (digits_value 10 (take length digits.now)) (greatest + 1) }
    ensures number { IfSome result (IsNumberBefore greatest digits.now) }
{
    if length == 0 || value > greatest {
        return None;
    }
    Some(NumberAt {
        value,
        rest: &digits[length..],
    })
}

/// The number at the front.
#[inline(always)]
fn number_in<'a>(digits: &'a [u8], greatest: u64) -> Option<NumberAt<'a>>
    requires limit { greatest ≤ 140737488355327 }
    requires gapless { IsGapless digits.now }
    ensures number { IfSome result (IsNumberBefore greatest digits.now) }
{
    let mut number = 0;
    for (at, &byte) in digits.iter().enumerate() {
        if !is_digit(byte) {
            return number_of(digits, number, at, greatest);
        }
        number = (number * 10 + u64::from(byte - b'0')).min(greatest + 1);
        // Of a number out of range, as long as it may be, no more is gone over.
        if number > greatest {
            return None;
        }
    }
    number_of(digits, number, digits.len(), greatest)
}

/// The number that comes next, where it is at most `greatest`.
#[inline(always)]
fn past_number<'a>(bytes: &'a [u8], greatest: u64) -> Option<NumberAt<'a>>
    requires limit { greatest ≤ 140737488355327 }
    ensures number { IfSome result (IsNumberBefore greatest bytes.now) }
{
    number_in(past_gap(bytes), greatest)
}

#[inline(always)]
fn positive(value: u64) -> i64
    requires small { value ≤ 140737488355327 }
    ensures value { result ≡ pos value }
{
    value as i64
}

#[inline(always)]
fn negative(value: u64) -> i64
    requires small { value ≤ 140737488355327 }
    ensures value { result ≡ neg_ℤ (pos value) }
{
    -(value as i64)
}

/// The number of an input, behind its sign where it has one, where no gap stands before it.
#[inline(always)]
#[tactic(auto, using(crate::proofs::pass::Starts::input_plain, crate::proofs::pass::Starts::input_negative))]
fn input_in<'a>(bytes: &'a [u8], greatest: u64) -> Option<InputAt<'a>>
    requires limit { greatest ≤ 140737488355327 }
    ensures input { IfSome result (IsInputBefore greatest bytes.now) }
{
    match past_mark(bytes, Kind::Minus) {
        Some(rest) => match past_number(rest, greatest) {
            Some(found) => Some(InputAt {
                value: negative(found.value),
                rest: found.rest,
            }),
            None => None,
        },
        None => match past_number(bytes, greatest) {
            Some(found) => Some(InputAt {
                value: positive(found.value),
                rest: found.rest,
            }),
            None => None,
        },
    }
}

/// The number of an input that comes next. What stands before it is gone over once.
#[inline(always)]
#[tactic(auto, using(crate::proofs::pass::Starts::input_behind))]
pub(crate) fn past_input<'a>(bytes: &'a [u8], greatest: u64) -> Option<InputAt<'a>>
    requires limit { greatest ≤ 140737488355327 }
    ensures input { IfSome result (IsInputBefore greatest bytes.now) }
{
    input_in(past_gap(bytes), greatest)
}
