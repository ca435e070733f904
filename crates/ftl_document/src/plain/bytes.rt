//! What bytes are by themselves.

ghost use Rattle.std.specs.Prelude.{◌≡◌};
ghost use Rattle.ftl_tokens.specs.scanner.Run.{byte_goes_on, byte_begins_word};
ghost use Rattle.ftl_tokens.specs.declared.scanner.run.Run.TheVariants.{White, Word, Digits, Comment};

// For each ASCII byte the sum of 1 if it is white space, 2 if it continues a word, 4 if it is a
// digit, 8 if it stays in a line, and 16 if it begins a word. For all others 0.
#[rattlefmt::skip]
static CLASS: [u8; 256] = [
    8, 8, 8, 8, 8, 8, 8, 8, 8, 9, 1, 8, 8, 9, 8, 8, 8, 8, 8, 8, 8, 8, 8, 8, 8, 8, 8, 8, 8, 8, 8, 8,
    9, 8, 8, 8, 8, 8, 8, 8, 8, 8, 8, 8, 8, 8, 8, 8, 14, 14, 14, 14, 14, 14, 14, 14, 14, 14, 8, 8, 8, 8, 8, 8,
    8, 26, 26, 26, 26, 26, 26, 26, 26, 26, 26, 26, 26, 26, 26, 26,
    26, 26, 26, 26, 26, 26, 26, 26, 26, 26, 26, 8, 8, 8, 8, 26,
    8, 26, 26, 26, 26, 26, 26, 26, 26, 26, 26, 26, 26, 26, 26, 26,
    26, 26, 26, 26, 26, 26, 26, 26, 26, 26, 26, 8, 8, 8, 8, 8,
    0, 0, 0, 0, 0, 0, 0, 0, 0, 0, 0, 0, 0, 0, 0, 0, 0, 0, 0, 0, 0, 0, 0, 0, 0, 0, 0, 0, 0, 0, 0, 0,
    0, 0, 0, 0, 0, 0, 0, 0, 0, 0, 0, 0, 0, 0, 0, 0, 0, 0, 0, 0, 0, 0, 0, 0, 0, 0, 0, 0, 0, 0, 0, 0,
    0, 0, 0, 0, 0, 0, 0, 0, 0, 0, 0, 0, 0, 0, 0, 0, 0, 0, 0, 0, 0, 0, 0, 0, 0, 0, 0, 0, 0, 0, 0, 0,
    0, 0, 0, 0, 0, 0, 0, 0, 0, 0, 0, 0, 0, 0, 0, 0, 0, 0, 0, 0, 0, 0, 0, 0, 0, 0, 0, 0, 0, 0, 0, 0,
];

/// Whether the byte is white space.
#[inline(always)]
pub(crate) fn is_white(byte: u8) -> bool
    ensures white { result ≡ byte_goes_on White byte }
{
    CLASS[byte as usize] & 1 != 0
}

/// Whether the byte is an ASCII character that goes on a word.
#[inline(always)]
pub(crate) fn goes_on_word(byte: u8) -> bool
    ensures goes { result ≡ byte_goes_on Word byte }
{
    CLASS[byte as usize] & 2 != 0
}

/// Whether the byte is a digit.
#[inline(always)]
pub(crate) fn is_digit(byte: u8) -> bool
    ensures digit { result ≡ byte_goes_on Digits byte }
{
    CLASS[byte as usize] & 4 != 0
}

/// Whether the byte is an ASCII character that stays in a line.
#[inline(always)]
pub(crate) fn stays_in_line(byte: u8) -> bool
    ensures stays { result ≡ byte_goes_on Comment byte }
{
    CLASS[byte as usize] & 8 != 0
}

/// Whether the byte is an ASCII character that begins a word.
#[inline(always)]
pub(crate) fn begins_word(byte: u8) -> bool
    ensures begins { result ≡ byte_begins_word byte }
{
    CLASS[byte as usize] & 16 != 0
}
