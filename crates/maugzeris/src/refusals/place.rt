//! The byte that a line tells.

ghost use Rattle.std.specs.Prelude.{◌≡◌, ◌≢◌, ◌++◌, MatchOption, List, ℕ, codes};
ghost use Rattle.std.specs.Fmt.{decimal};
ghost use Rattle.ftl_answer.specs.refusals.Names.{section_name};
ghost use Rattle.ftl_answer.specs.refusals.TextLines.{at_byte};
ghost use Rattle.maugzeris.specs.refusals.Places.{IsLine, TellsByte, TellsByteOf, ToldByte};

use ftl_page::Section;
use itoa::Buffer;

/// The byte at which a text goes wrong, where the line tells one.
pub(crate) fn byte_in(line: &[u8]) -> Option<u32>
    ensures byte { ToldByte (TellsByte line.now) result }
{
    if let Some(at) = byte_of(line, Section::Grammar) {
        return Some(at);
    }
    if let Some(at) = byte_of(line, Section::Schedule) {
        return Some(at);
    }
    if let Some(at) = byte_of(line, Section::Document) {
        return Some(at);
    }
    byte_of(line, Section::Edits)
}

/// The byte, where the line refuses the text of this section.
fn byte_of(line: &[u8], section: Section) -> Option<u32>
    ensures byte { ToldByte (TellsByteOf section line.now) result }
{
    if let Some(at) = byte_for(line, section, b"bad character") {
        return Some(at);
    }
    if let Some(at) = byte_for(line, section, b"number too large") {
        return Some(at);
    }
    if let Some(at) = byte_for(line, section, b"syntax") {
        return Some(at);
    }
    byte_for(line, section, b"too deep")
}

/// The byte, where the line refuses the text for this.
fn byte_for(line: &[u8], section: Section, what: &[u8]) -> Option<u32>
    ensures byte { ToldByte (λ at. IsLine (at_byte section what.now at) line.now) result }
{
    let Some(rest) = after(line, b"refused ") else {
        return None;
    };
    let Some(rest) = after(rest, name_of(section)) else {
        return None;
    };
    let Some(rest) = after(rest, b": ") else {
        return None;
    };
    let Some(rest) = after(rest, what) else {
        return None;
    };
    let Some(rest) = after(rest, b" at ") else {
        return None;
    };
    let Some(digits) = before_line_feed(rest) else {
        return None;
    };
    number_of(digits)
}

/// The name of a section, as lines have it.
fn name_of(section: Section) -> &'static [u8]
    ensures name { result.now ≡ section_name section }
{
    match section {
        Section::Grammar => b"grammar",
        Section::Schedule => b"schedule",
        Section::Document => b"document",
        Section::Edits => b"edits",
    }
}

/// What stands behind the beginning.
fn after<'t>(text: &'t [u8], beginning: &[u8]) -> Option<&'t [u8]>
    ensures rest { MatchOption result
        ((rest : List ℕ) → text.now ≢ beginning.now ++ rest)
        (λ rest. text.now ≡ beginning.now ++ rest.now) }
{
    text.strip_prefix(beginning)
}

/// What stands before the line feed at the end.
fn before_line_feed(text: &[u8]) -> Option<&[u8]>
    ensures line { MatchOption result
        ((line : List ℕ) → text.now ≢ line ++ codes "\n")
        (λ line. text.now ≡ line.now ++ codes "\n") }
{
    text.strip_suffix(b"\n")
}

/// The number of 32 bits that has these digits, without zeros before them.
fn number_of(digits: &[u8]) -> Option<u32>
    ensures number { ToldByte (λ n. digits.now ≡ decimal n) result }
{
    let Ok(text) = str::from_utf8(digits) else {
        return None;
    };
    let Ok(number) = text.parse::<u32>() else {
        return None;
    };
    if Buffer::new().format(number).as_bytes() == digits {
        Some(number)
    } else {
        None
    }
}
