//! Refusals, printed.

use itoa::Buffer;
use std::alloc::{AllocError, Global};
use std::fmt::Write;

/// How many characters of a long line are printed at most, and how many of them before the mark.
const MOST: usize = 100;

const BEFORE: usize = 60;

/// How many characters the number of a line takes at least.
const GUTTER: usize = 5;

/// Where in a file a refusal is: a line; where one is known, a column; and how many characters are
/// meant there.
#[derive(Clone, Copy)]
pub struct Spot {
    pub line: usize,
    pub column: Option<usize>,
    pub width: usize,
}

/// The line that refuses a page, with its place in the file before it, the line of the file there,
/// a mark below that, and the notes.
pub fn print_refusal(
    alloc: Global,
    name: &str,
    file: &str,
    spot: Option<Spot>,
    notes: &str,
    told: &str,
) -> Result<String, AllocError> {
    let mut out = String::new(alloc);
    out.push_str(name)?;
    match spot {
        Some(spot) => push_spot(&mut out, file, spot)?,
        None => out.push_str(":\n")?,
    }
    for note in notes.lines() {
        push_gutter(&mut out, spot, " = ")?;
        out.push_str(note)?;
        out.push_str("\n")?;
    }
    out.push_str(told)?;
    Ok(out)
}

fn push_spot(out: &mut String, file: &str, spot: Spot) -> Result<(), AllocError> {
    let line = line_at(file, spot.line);
    let Some(column) = spot.column else {
        writeln!(out, ":{}:", spot.line)?;
        return push_line(out, spot.line, line, 0);
    };
    writeln!(out, ":{}:{column}:", spot.line)?;
    let left_out = column.saturating_sub(BEFORE + 1);
    push_line(out, spot.line, line, left_out)?;
    push_gutter(out, Some(spot), " | ")?;
    push_mark(out, line, left_out, column.saturating_sub(left_out + 1))?;
    push_tail(out, spot.width.min(MOST))
}

/// The line of this number.
fn line_at(file: &str, number: usize) -> &str {
    file.lines().nth(number.saturating_sub(1)).unwrap_or("")
}

/// Appends so many spaces.
fn push_spaces(out: &mut String, count: usize) -> Result<(), AllocError> {
    for _space in 0..count {
        out.push_str(" ")?;
    }
    Ok(())
}

/// Appends the room that the number of a line takes, and what stands behind it.
fn push_gutter(out: &mut String, spot: Option<Spot>, behind: &str) -> Result<(), AllocError> {
    let line = match spot {
        Some(spot) => spot.line,
        None => 0,
    };
    push_spaces(out, Buffer::new().format(line).len().max(GUTTER))?;
    out.push_str(behind)
}

/// Appends a line behind its number, without so many characters at its front.
fn push_line(
    out: &mut String,
    number: usize,
    line: &str,
    left_out: usize,
) -> Result<(), AllocError> {
    let mut digits = Buffer::new();
    let digits = digits.format(number);
    push_spaces(out, GUTTER.saturating_sub(digits.len()))?;
    out.push_str(digits)?;
    out.push_str(" | ")?;
    for c in line.chars().skip(left_out).take(MOST) {
        out.push(c)?;
    }
    out.push_str("\n")
}

/// Appends a mark below the character that so many printed ones come before. A tab stays a tab.
fn push_mark(
    out: &mut String,
    line: &str,
    left_out: usize,
    before: usize,
) -> Result<(), AllocError> {
    for c in line.chars().skip(left_out).take(before) {
        out.push(if c == '\t' { '\t' } else { ' ' })?;
    }
    out.push_str("^")
}

/// Appends what else belongs to a mark of so many characters, and ends its line.
fn push_tail(out: &mut String, width: usize) -> Result<(), AllocError> {
    for _more in 1..width {
        out.push_str("~")?;
    }
    out.push_str("\n")
}
