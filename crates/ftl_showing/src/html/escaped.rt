//! Texts as HTML.

use std::alloc::AllocError;

/// Appends a text as HTML shows it.
pub fn push_escaped(out: &mut String, text: &str) -> Result<(), AllocError> {
    for c in text.chars() {
        push_character(out, c)?;
    }
    Ok(())
}

/// Appends a character as HTML shows it. A control character has a picture in its place.
pub fn push_character(out: &mut String, c: char) -> Result<(), AllocError> {
    match c {
        '<' => out.push_str("&lt;"),
        '>' => out.push_str("&gt;"),
        '&' => out.push_str("&amp;"),
        '"' => out.push_str("&quot;"),
        '\'' => out.push_str("&#39;"),
        '\t' | '\n' => out.push(c),
        _ => out.push(visible(c)),
    }
}

/// The character, or a picture of it.
fn visible(c: char) -> char {
    match u32::from(c) {
        code if code < 32 => char::from_u32(code + 0x2400).unwrap_or('\u{fffd}'),
        127 => '\u{2421}',
        128..=159 | 0xfffe | 0xffff => '\u{fffd}',
        _ => c,
    }
}
