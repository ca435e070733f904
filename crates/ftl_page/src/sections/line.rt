//! Lines, and the words of headings.

ghost use Rattle.std.specs.Prelude.{◌≡◌, ◌-◌, ◌<◌, ◌≤◌, ◌++◌, ◌∷◌, ◌⊎◌, length, take, drop};
ghost use Rattle.std.specs.Prelude.{slice_index_or};
ghost use Rattle.std.specs.Str.{bytes_eq};
ghost use Rattle.ftl_tokens.specs.scanner.Scan.{is_white_space};
ghost use Rattle.ftl_page.specs.sections.Lines.{lines_of, is_stray, is_heading};

use memchr::memchr;

#[inline]
pub fn is_white_space(b: u8) -> bool
    ensures space { result ≡ is_white_space b }
{
    b == b' ' || b == b'\t' || b == b'\r' || b == b'\n'
}

// How many bytes the first line has, with its line feed.
fn line_length(text: &[u8]) -> usize
    ensures first { 0 < length text.now
        → lines_of text.now ≡ take result text.now ∷ lines_of (drop result text.now) }
    ensures some { 0 < length text.now → 0 < result }
    ensures within { result ≤ length text.now }
    ensures end { (result ≡ length text.now)
        ⊎ ((0 < result) × (slice_index_or text.now (result - 1) 0 ≡ 10)) }
{
    match memchr(b'\n', text) {
        Some(place) => place + 1,
        None => text.len(),
    }
}

/// The first line, with its line feed, and what follows it.
pub fn split_line(text: &str) -> (&str, &str)
    ensures lines { 0 < length text.now → lines_of text.now ≡ result.0.now ∷ lines_of result.1.now }
    ensures some { 0 < length text.now → 0 < length result.0.now }
    ensures whole { text.now ≡ result.0.now ++ result.1.now }
{
    text.split_at(line_length(text.as_bytes()))
}

pub fn is_heading(line: &str) -> bool
    ensures heading { result ≡ is_heading line.now }
{
    line.as_bytes().first() == Some(&b'%')
}

/// Whether a line is neither blank nor a comment.
pub fn is_stray(line: &str) -> bool
    ensures stray { result ≡ is_stray line.now }
{
    for b in line.as_bytes() {
        if !is_white_space(*b) {
            return *b != b'#';
        }
    }
    false
}
