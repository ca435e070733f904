//! Where sections stand in a file.

ghost use Rattle.std.specs.Prelude.{◌≡◌, ◌<◌, ◌≤◌, ◌∷◌, ◌++◌, length, take, drop, IfSome};
ghost use Rattle.ftl_page.specs.sections.Lines.{lines_of};
ghost use Rattle.ftl_refusals.specs.places.Sections.{IsSectionAt};

use memchr::memchr;

/// Where the text of a section begins in a file: behind the first heading of this word below which
/// the text stands. None where there is none, as of a grammar that comes with the program.
pub fn section_start(file: &[u8], word: &[u8], text: &[u8]) -> Option<usize>
    ensures start { IfSome result (λ start. IsSectionAt file.now word.now text.now start) }
{
    let mut rest = file;
    while !rest.is_empty() {
        let (line, after) = split_line(rest);
        if line.starts_with(word) && after.starts_with(text) {
            return Some(file.len() - after.len());
        }
        rest = after;
    }
    None
}

/// The first line, with its line feed, and what follows it.
fn split_line(text: &[u8]) -> (&[u8], &[u8])
    ensures first { 0 < length text.now → lines_of text.now ≡ result.0.now ∷ lines_of result.1.now }
    ensures some { 0 < length text.now → 0 < length result.0.now }
    ensures whole { text.now ≡ result.0.now ++ result.1.now }
{
    text.split_at(line_length(text))
}

/// How many bytes the first line has, with its line feed.
fn line_length(text: &[u8]) -> usize
    ensures first { 0 < length text.now
        → lines_of text.now ≡ take result text.now ∷ lines_of (drop result text.now) }
    ensures some { 0 < length text.now → 0 < result }
    ensures within { result ≤ length text.now }
{
    match memchr(b'\n', text) {
        Some(place) => place + 1,
        None => text.len(),
    }
}
