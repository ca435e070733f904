//! How far white space, a word, a number or a comment goes.

ghost use Rattle.std.specs.Prelude.{◌≡◌};
ghost use Rattle.std.specs.List.{take_while};
ghost use Rattle.std.specs.Str.{chars};
ghost use Rattle.ftl_tokens.specs.scanner.Scan.{is_white_space, byte_length};
ghost use Rattle.ftl_tokens.specs.scanner.Run.{goes_on, byte_goes_on, byte_begins_word};

use unicode_ident::is_xid_continue;

/// What goes on from character to character.
#[derive(Clone, Copy, Debug, PartialEq, Eq)]
pub enum Run {
    White,
    Word,
    Digits,
    Comment,
}

/// White space.
#[inline]
fn is_white_space(c: char) -> bool
    ensures space { result ≡ is_white_space c }
{
    c == ' ' || c == '\t' || c == '\r' || c == '\n'
}

#[inline]
fn char_goes_on(run: Run, c: char) -> bool
    ensures goes { result ≡ goes_on run c }
{
    match run {
        Run::White => is_white_space(c),
        Run::Word => is_xid_continue(c),
        Run::Digits => c.is_ascii_digit(),
        Run::Comment => c != '\n',
    }
}

// For each ASCII byte the sum of 1 if it is white space, 2 if it continues a word, 4 if it is a
// digit, 8 if it stays in a line, and 16 if it begins a word. For all others 0.
#[rattlefmt::skip]
static CLASS: [u8; 256] = [
    8, 8, 8, 8, 8, 8, 8, 8, 8, 9, 1, 8, 8, 9, 8, 8,
    8, 8, 8, 8, 8, 8, 8, 8, 8, 8, 8, 8, 8, 8, 8, 8,
    9, 8, 8, 8, 8, 8, 8, 8, 8, 8, 8, 8, 8, 8, 8, 8,
    14, 14, 14, 14, 14, 14, 14, 14, 14, 14, 8, 8, 8, 8, 8, 8,
    8, 26, 26, 26, 26, 26, 26, 26, 26, 26, 26, 26, 26, 26, 26, 26,
    26, 26, 26, 26, 26, 26, 26, 26, 26, 26, 26, 8, 8, 8, 8, 26,
    8, 26, 26, 26, 26, 26, 26, 26, 26, 26, 26, 26, 26, 26, 26, 26,
    26, 26, 26, 26, 26, 26, 26, 26, 26, 26, 26, 8, 8, 8, 8, 8,
    0, 0, 0, 0, 0, 0, 0, 0, 0, 0, 0, 0, 0, 0, 0, 0,
    0, 0, 0, 0, 0, 0, 0, 0, 0, 0, 0, 0, 0, 0, 0, 0,
    0, 0, 0, 0, 0, 0, 0, 0, 0, 0, 0, 0, 0, 0, 0, 0,
    0, 0, 0, 0, 0, 0, 0, 0, 0, 0, 0, 0, 0, 0, 0, 0,
    0, 0, 0, 0, 0, 0, 0, 0, 0, 0, 0, 0, 0, 0, 0, 0,
    0, 0, 0, 0, 0, 0, 0, 0, 0, 0, 0, 0, 0, 0, 0, 0,
    0, 0, 0, 0, 0, 0, 0, 0, 0, 0, 0, 0, 0, 0, 0, 0,
    0, 0, 0, 0, 0, 0, 0, 0, 0, 0, 0, 0, 0, 0, 0, 0,
];

/// Whether the byte is an ASCII character that goes on.
#[inline]
pub fn byte_goes_on(run: Run, byte: u8) -> bool
    ensures goes { result ≡ byte_goes_on run byte }
{
    match run {
        Run::White => CLASS[byte as usize] & 1 != 0,
        Run::Word => CLASS[byte as usize] & 2 != 0,
        Run::Digits => CLASS[byte as usize] & 4 != 0,
        Run::Comment => CLASS[byte as usize] & 8 != 0,
    }
}

/// Whether the byte is an ASCII character that begins a word.
#[inline]
pub fn byte_begins_word(byte: u8) -> bool
    ensures begins { result ≡ byte_begins_word byte }
{
    CLASS[byte as usize] & 16 != 0
}

/// How many bytes the characters have that go on from the front of `text`.
#[inline(never)]
fn char_run_length(run: Run, text: &str) -> usize
    ensures length { result ≡ byte_length (take_while (goes_on run) (chars text.now)) }
{
    for (place, c) in text.char_indices() {
        if !char_goes_on(run, c) {
            return place;
        }
    }
    text.len()
}

/// How many bytes the characters have that go on from the front of `text`. They are decoded only
/// from the first one on that is not ASCII.
#[inline(always)]
pub fn run_length(run: Run, text: &str) -> usize
    ensures length { result ≡ byte_length (take_while (goes_on run) (chars text.now)) }
{
    for (at, &byte) in text.as_bytes().iter().enumerate() {
        if !byte_goes_on(run, byte) {
            if byte < 128 {
                return at;
            }
            return at + char_run_length(run, &text[at..]);
        }
    }
    text.len()
}
