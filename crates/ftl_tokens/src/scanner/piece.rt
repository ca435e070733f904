//! What stands at the front of a text: white space or a comment, a token, or neither.

ghost use Rattle.std.specs.Prelude.{◌≡◌, ℕ, ◌≤◌, [], ◌∷◌};
ghost use Rattle.std.specs.Str.{chars};
ghost use Rattle.ftl_tokens.specs.scanner.Kinds.{kind_of_mark};
ghost use Rattle.ftl_tokens.specs.scanner.Scan.{token_if};
ghost use Rattle.ftl_tokens.specs.scanner.Piece.{IsPieceOf, IsFrontPiece, IsTokenPiece};
ghost use Rattle.ftl_tokens.specs.scanner.Piece.{IsNumberPiece};
ghost use Rattle.ftl_tokens.specs.scanner.Piece.{StartsWord, StartsNumber, StartsOther, StartsFar};

use crate::scanner::kind::Kind;
use crate::scanner::run::{Run, byte_begins_word, byte_goes_on, run_length};
use crate::scanner::word::{long_mark, short_mark, word_kind};
use unicode_ident::is_xid_start;

/// The front of a text, with its length in bytes.
#[derive(Clone, Copy, Debug, PartialEq, Eq)]
pub enum Piece {
    /// White space as far as it goes, or a comment.
    Gap(usize),
    /// The longest token.
    Token(Kind, usize),
    /// A number above the greatest.
    LargeNumber,
    /// None of these, or no character at all.
    Nothing,
}

#[inline(always)]
fn word_piece(text: &str) -> Piece
    requires word { StartsWord (chars text.now) }
    ensures piece { (greatest : ℕ) → IsTokenPiece greatest (chars text.now) result }
{
    let length = run_length(Run::Word, text);
    Piece::Token(word_kind(&text[..length]), length)
}

/// The number of so many digits, which is cut at `greatest` and one.
#[inline(always)]
fn number_token(number: u64, length: usize, greatest: u64) -> Piece
    ensures piece { IsNumberPiece greatest number length result }
{
    if number > greatest {
        Piece::LargeNumber
    } else {
        Piece::Token(Kind::Number, length)
    }
}

#[inline(always)]
fn number_piece(text: &str, greatest: u64) -> Piece
    requires number { StartsNumber (chars text.now) }
    requires limit { greatest ≤ 140737488355327 }
    ensures piece { IsTokenPiece greatest (chars text.now) result }
{
    let mut number = 0;
    for (at, &byte) in text.as_bytes().iter().enumerate() {
        if !byte.is_ascii_digit() {
            return number_token(number, at, greatest);
        }
        number = (number * 10 + u64::from(byte - b'0')).min(greatest + 1);
    }
    number_token(number, text.len(), greatest)
}

#[inline(always)]
fn short_piece(c: char) -> Piece
    ensures piece { (greatest : ℕ)
        → IsPieceOf greatest (token_if (kind_of_mark (c ∷ [])) 1) (c ∷ []) result }
{
    match short_mark(c) {
        Some(kind) => Piece::Token(kind, c.len_utf8()),
        None => Piece::Nothing,
    }
}

#[inline(always)]
fn mark_piece(text: &str) -> Piece
    requires other { StartsOther (chars text.now) }
    ensures piece { (greatest : ℕ) → IsTokenPiece greatest (chars text.now) result }
{
    let mut rest = text.chars();
    let Some(first) = rest.next() else {
        return Piece::Nothing;
    };
    let Some(second) = rest.next() else {
        return short_piece(first);
    };
    match long_mark(first, second) {
        Some(kind) => Piece::Token(kind, first.len_utf8() + second.len_utf8()),
        None => short_piece(first),
    }
}

/// The front of a text that begins beyond ASCII.
#[inline(never)]
fn far_piece(text: &str) -> Piece
    requires far { StartsFar (chars text.now) }
    ensures piece { (greatest : ℕ) → IsTokenPiece greatest (chars text.now) result }
{
    let Some(first) = text.chars().next() else {
        return Piece::Nothing;
    };
    if is_xid_start(first) {
        word_piece(text)
    } else {
        mark_piece(text)
    }
}

/// The front of a text, whose numbers are at most `greatest`.
#[inline(always)]
pub fn piece_of(text: &str, greatest: u64) -> Piece
    requires limit { greatest ≤ 140737488355327 }
    ensures piece { IsFrontPiece greatest (chars text.now) result }
{
    if text.is_empty() {
        return Piece::Nothing;
    }
    let first = text.as_bytes()[0];
    if first >= 128 {
        far_piece(text)
    } else if byte_goes_on(Run::White, first) {
        Piece::Gap(run_length(Run::White, text))
    } else if first == b'#' {
        Piece::Gap(run_length(Run::Comment, text))
    } else if byte_begins_word(first) {
        word_piece(text)
    } else if byte_goes_on(Run::Digits, first) {
        number_piece(text, greatest)
    } else {
        mark_piece(text)
    }
}
