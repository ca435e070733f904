//! Lines cut to a width, and coloured.

ghost use Rattle.std.specs.Prelude.{◌≡◌, false, None, IfOk};

use std::alloc::{AllocError, Global};

/// How lines are written.
#[derive(Clone, Copy)]
pub struct Style {
    /// Whether classes stand out, and values that are Overflow.
    pub color: bool,
    /// How many characters a line has at most.
    pub width: Option<usize>,
}

const BOLD: &str = "\x1b[1m";

const RED: &str = "\x1b[31m";

const PLAIN: &str = "\x1b[0m";

/// The lines of a text in this style.
pub fn styled(alloc: Global, text: String, style: Style) -> Result<String, AllocError>
    ensures plain { style.color ≡ false → style.width ≡ None → IfOk result (λ t. t ≡ text) }
{
    if !style.color && style.width.is_none() {
        return Ok(text);
    }
    let mut out = String::new(alloc);
    for line in text.as_str().lines() {
        push_styled(&mut out, line, style)?;
        out.push_str("\n")?;
    }
    Ok(out)
}

/// Appends a line in this style. A line that is cut ends with three dots in one character.
fn push_styled(out: &mut String, line: &str, style: Style) -> Result<(), AllocError> {
    let (kept, end) = cut(line, style.width);
    if style.color {
        push_colored(out, kept)?;
    } else {
        out.push_str(kept)?;
    }
    out.push_str(end)
}

/// The front of a line that fits the width, and what stands for the rest of it.
fn cut(line: &str, width: Option<usize>) -> (&str, &'static str) {
    let Some(width) = width else {
        return (line, "");
    };
    if line.chars().count() <= width {
        return (line, "");
    }
    (front(line, width.saturating_sub(1)), "…")
}

/// So many characters of a line.
fn front(line: &str, count: usize) -> &str {
    match line.char_indices().nth(count) {
        Some((end, _)) => line.get(..end).unwrap_or(line),
        None => line,
    }
}

/// Appends a line word by word: bold the class behind the number of a node, and red each value that
/// is Overflow.
fn push_colored(out: &mut String, line: &str) -> Result<(), AllocError> {
    let text = line.trim_start();
    out.push_str(line.strip_suffix(text).unwrap_or(""))?;
    let mut behind_number = false;
    for (place, word) in text.split(' ').enumerate() {
        if place > 0 {
            out.push_str(" ")?;
        }
        push_word(out, behind_number, word)?;
        behind_number = place == 0 && is_number(word);
    }
    Ok(())
}

fn is_number(word: &str) -> bool {
    word.bytes().all(|b| b.is_ascii_digit())
}

fn push_word(out: &mut String, behind_number: bool, word: &str) -> Result<(), AllocError> {
    let color = if word.ends_with("=overflow") {
        RED
    } else if behind_number {
        BOLD
    } else {
        return out.push_str(word);
    };
    out.push_str(color)?;
    out.push_str(word)?;
    out.push_str(PLAIN)
}
