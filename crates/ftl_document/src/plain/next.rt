//! What comes next in a text.

ghost use Rattle.std.specs.Prelude.{◌≡◌, ℕ, ◌<◌, ◌≤◌, ◌+◌, true, false, length, take, drop, min, slice_index};
ghost use Rattle.std.specs.List.{prefix_len};
ghost use Rattle.std.specs.Str.{IsCharBoundary};
ghost use Rattle.std.specs.Str.Parse.{digits_value};
ghost use Rattle.ftl_tokens.specs.scanner.Run.{byte_goes_on, byte_begins_word};
ghost use Rattle.ftl_tokens.specs.declared.scanner.run.Run.TheVariants.{Digits};
ghost use Rattle.ftl_document.specs.plain.Plain.{plain_mark, equals_before};
ghost use Rattle.ftl_document.specs.plain.Found.{IsFoundIn, IsGapless, Starts};

use crate::plain::bytes::{begins_word, is_digit};
use crate::plain::gaps::gap_length;
use crate::plain::runs::word_length;
use crate::plain::words::is_name;
use crate::syntax::NameRef;
use ftl_tokens::Kind;

/// The next token.
#[derive(Drop)]
pub(crate) enum Next<'a> {
    End,
    Name(NameRef<'a>),
    Number(u64),
    Mark(Kind),
}

/// The next token, and the text behind it.
#[derive(Drop)]
pub(crate) struct Found<'a> {
    pub(crate) next: Next<'a>,
    pub(crate) rest: &'a str,
}

/// A mark that stands in no document, where what comes is not plain.
#[inline(always)]
fn stopped<'a>() -> Found<'a>
    ensures next { result.next ≡ Next.Mark Kind.Bang }
    ensures rest { length result.rest.now ≡ 0 }
{
    Found {
        next: Next::Mark(Kind::Bang),
        rest: "",
    }
}

/// The word at the front.
#[inline(always)]
fn word_in<'a>(text: &'a str) -> Found<'a>
    requires gapless { IsGapless text.now }
    requires word { Starts byte_begins_word text.now }
    ensures found { (greatest : ℕ) → IsFoundIn greatest text.now result }
{
    let length = 1 + word_length(&text.as_bytes()[1..]);
    let word = &text[..length];
    if !is_name(word) {
        return stopped();
    }
    Found {
        next: Next::Name(NameRef::new(word)),
        rest: &text[length..],
    }
}

/// The number of so many digits, which is cut at `greatest` and one.
#[inline(always)]
fn number_of<'a>(text: &'a str, number: u64, length: usize, greatest: u64) -> Found<'a>
    requires limit { greatest ≤ 140737488355327 }
    requires gapless { IsGapless text.now }
    requires digits { Starts (byte_goes_on Digits) text.now }
    requires length { length ≡ prefix_len (byte_goes_on Digits) text.now }
    requires number { number ≡ min (digits_value 10 (take length text.now)) (greatest + 1) }
    ensures found { IsFoundIn greatest text.now result }
{
    if number > greatest {
        return stopped();
    }
    Found {
        next: Next::Number(number),
        rest: &text[length..],
    }
}

/// A number whose digits up to here are out of range. However many follow, none is gone over.
fn too_large<'a>(text: &'a str, at: usize, greatest: u64) -> Found<'a>
    requires gapless { IsGapless text.now }
    requires digits { Starts (byte_goes_on Digits) text.now }
    requires run { at ≤ prefix_len (byte_goes_on Digits) text.now }
    requires large { greatest < digits_value 10 (take at text.now) }
    ensures found { IsFoundIn greatest text.now result }
{
    let _ = text;
    let _ = at;
    let _ = greatest;
    stopped()
}

/// The number at the front.
#[inline(always)]
fn number_in<'a>(text: &'a str, greatest: u64) -> Found<'a>
    requires limit { greatest ≤ 140737488355327 }
    requires gapless { IsGapless text.now }
    requires digits { Starts (byte_goes_on Digits) text.now }
    ensures found { IsFoundIn greatest text.now result }
{
    let mut number = 0;
    for (at, &byte) in text.as_bytes().iter().enumerate() {
        if !is_digit(byte) {
            return number_of(text, number, at, greatest);
        }
        number = (number * 10 + u64::from(byte - b'0')).min(greatest + 1);
        if greatest < number {
            return too_large(text, at + 1, greatest);
        }
    }
    number_of(text, number, text.len(), greatest)
}

/// The mark `=`, where no second one follows.
#[inline(always)]
fn equals_before(after: &[u8]) -> Option<Kind>
    ensures mark { result ≡ equals_before after.now }
{
    match after {
        [b'=', ..] => None,
        _ => Some(Kind::Equals),
    }
}

/// The mark of documents that begins with this byte, before the others.
#[inline(always)]
pub(crate) fn plain_mark(byte: u8, after: &[u8]) -> Option<Kind>
    ensures mark { result ≡ plain_mark byte after.now }
{
    match byte {
        b'=' => equals_before(after),
        b'{' => Some(Kind::LeftBrace),
        b'}' => Some(Kind::RightBrace),
        b'[' => Some(Kind::LeftBracket),
        b']' => Some(Kind::RightBracket),
        b'-' => Some(Kind::Minus),
        _ => None,
    }
}

/// The mark at the front.
#[inline(always)]
fn mark_in<'a>(text: &'a str) -> Found<'a>
    requires some { 0 < length text.now }
    requires gapless { IsGapless text.now }
    requires no_word { byte_begins_word (slice_index text.now 0) ≡ false }
    requires no_number { byte_goes_on Digits (slice_index text.now 0) ≡ false }
    ensures found { (greatest : ℕ) → IsFoundIn greatest text.now result }
{
    let bytes = text.as_bytes();
    match plain_mark(bytes[0], &bytes[1..]) {
        Some(kind) => Found {
            next: Next::Mark(kind),
            rest: &text[1..],
        },
        None => stopped(),
    }
}

/// The next token of a text, whose numbers are at most `greatest`.
#[inline(always)]
pub(crate) fn found_in<'a>(text: &'a str, greatest: u64) -> Found<'a>
    requires limit { greatest ≤ 140737488355327 }
    ensures found { IsFoundIn greatest text.now result }
{
    let rest = &text[gap_length(text.as_bytes())..];
    if rest.is_empty() {
        return Found {
            next: Next::End,
            rest,
        };
    }
    let first = rest.as_bytes()[0];
    if begins_word(first) {
        word_in(rest)
    } else if is_digit(first) {
        number_in(rest, greatest)
    } else {
        mark_in(rest)
    }
}
