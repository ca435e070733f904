//! The words of headings, and what they stand for.

ghost use Rattle.std.specs.Prelude.{◌≡◌, ◌<◌, ◌≤◌, ◌↔◌, [], ◌∷◌, length, not, option_map, IsTrue};
ghost use Rattle.std.specs.List.{prefix_len, position_or_len};
ghost use Rattle.ftl_tokens.specs.scanner.Scan.{is_white_space};
ghost use Rattle.ftl_page.specs.sections.Lines.{words_of};
ghost use Rattle.ftl_page.specs.sections.Blocks.{content_of, grammar_content, schedule_content};
ghost use Rattle.ftl_page.specs.sections.Blocks.{plain_content};
ghost use Rattle.ftl_page.specs.sections.Opening.{width_of_opening, width_of_version};
ghost use Rattle.ftl_page.specs.sections.Headings.{content};

use crate::sections::fault::Section;
use crate::sections::line::is_white_space;
use ftl_base::Width;

/// What a heading stands for.
#[derive(Clone, Copy, Debug)]
pub enum Heading<'a> {
    /// The section in the lines after it.
    Own(Section),
    /// The shipped grammar of this name.
    Named(&'a [u8]),
    /// The automatic schedule.
    Automatic,
}

fn white_length(line: &[u8]) -> usize
    ensures length { result ≡ prefix_len is_white_space line.now }
    ensures within { result ≤ length line.now }
{
    for (place, b) in line.iter().enumerate() {
        if !is_white_space(*b) {
            return place;
        }
    }
    line.len()
}

fn word_length(line: &[u8]) -> usize
    ensures length { result ≡ position_or_len is_white_space line.now }
    ensures within { result ≤ length line.now }
{
    for (place, b) in line.iter().enumerate() {
        if is_white_space(*b) {
            return place;
        }
    }
    line.len()
}

/// The first word, which is empty where there is none, and what follows it.
fn next_word(line: &[u8]) -> (&[u8], &[u8])
    ensures none { length result.0.now ≡ 0 → words_of line.now ≡ [] }
    ensures some { 0 < length result.0.now
        → words_of line.now ≡ result.0.now ∷ words_of result.1.now }
{
    let (_, start) = line.split_at(white_length(line));
    start.split_at(word_length(start))
}

// Whether no word is left.
fn is_end(line: &[u8]) -> bool
    ensures end { IsTrue result ↔ (words_of line.now ≡ []) }
{
    next_word(line).0.is_empty()
}

fn grammar_heading(line: &[u8]) -> Option<Heading<'_>>
    ensures heading { option_map content result ≡ grammar_content (words_of line.now) }
{
    let (name, rest) = next_word(line);
    if name.is_empty() {
        Some(Heading::Own(Section::Grammar))
    } else if is_end(rest) {
        Some(Heading::Named(name))
    } else {
        None
    }
}

fn schedule_heading(line: &[u8]) -> Option<Heading<'_>>
    ensures heading { option_map content result ≡ schedule_content (words_of line.now) }
{
    let (word, rest) = next_word(line);
    if word.is_empty() {
        Some(Heading::Own(Section::Schedule))
    } else if is_end(rest) && word == b"auto".as_slice() {
        Some(Heading::Automatic)
    } else {
        None
    }
}

// The heading of a section that takes no more words.
fn plain_heading(section: Section, line: &[u8]) -> Option<Heading<'_>>
    ensures heading { option_map content result ≡ plain_content section (words_of line.now) }
{
    if is_end(line) {
        Some(Heading::Own(section))
    } else {
        None
    }
}

/// What a heading stands for, if it is known.
pub fn heading_of(line: &[u8]) -> Option<Heading<'_>>
    ensures heading { option_map content result ≡ content_of (words_of line.now) }
{
    let (first, rest) = next_word(line);
    if first.is_empty() {
        None
    } else if first == b"%grammar".as_slice() {
        grammar_heading(rest)
    } else if first == b"%schedule".as_slice() {
        schedule_heading(rest)
    } else if first == b"%document".as_slice() {
        plain_heading(Section::Document, rest)
    } else if first == b"%edits".as_slice() {
        plain_heading(Section::Edits, rest)
    } else {
        None
    }
}

// The width that a version names, which stands alone.
fn width_of_version(line: &[u8]) -> Option<Width>
    ensures width { result ≡ width_of_version (words_of line.now) }
{
    let (word, rest) = next_word(line);
    if word.is_empty() || !is_end(rest) {
        None
    } else if word == b"1".as_slice() {
        Some(Width::Narrow)
    } else if word == b"2".as_slice() {
        Some(Width::Wide)
    } else {
        None
    }
}

/// The width of a page whose line 1 has these words, if they are `%page` and a version.
pub fn width_of_opening(line: &[u8]) -> Option<Width>
    ensures width { result ≡ width_of_opening (words_of line.now) }
{
    let (first, rest) = next_word(line);
    if !first.is_empty() && first == b"%page".as_slice() {
        width_of_version(rest)
    } else {
        None
    }
}
