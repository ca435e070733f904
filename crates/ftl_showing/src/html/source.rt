//! The text of a file with its lines numbered.

use crate::html::escaped::push_character;
use ftl_refusals::Spot;
use std::alloc::AllocError;
use std::fmt::Write;

/// How many lines are shown at most, and how many of them before a place that is marked.
const LINES: usize = 5000;

const LINES_BEFORE: usize = 2500;

/// How many characters of a line are shown at most, and how many of them before a mark.
const WIDTH: usize = 1000;

const BEFORE: usize = 500;

/// Which lines are shown, counted from 0: from one on, up to another.
#[derive(Clone, Copy)]
struct Shown {
    first: usize,
    end: usize,
}

/// Appends a panel with the lines of a text, and with a mark at a place. Of a long text only the
/// lines around the place are shown, else its first ones.
pub fn push_source(out: &mut String, text: &str, spot: Option<Spot>) -> Result<(), AllocError> {
    let count = text.lines().count();
    let shown = shown_of(count, spot);
    out.push_str("<section class=\"source\"><h2>Text")?;
    if shown.end.saturating_sub(shown.first) < count {
        let first = shown.first.saturating_add(1);
        write!(out, ", lines {first} to {} of {count}", shown.end)?;
    }
    out.push_str("</h2><div class=\"pane code\" id=\"source\"><pre class=\"numbers\">\n")?;
    push_numbers(out, shown)?;
    out.push_str("</pre><pre>\n")?;
    push_lines(out, text, shown, spot)?;
    if let Some(spot) = spot
        && spot.line > count
    {
        push_marked(out, "", spot)?;
    }
    out.push_str("</pre></div></section>\n")
}

fn shown_of(count: usize, spot: Option<Spot>) -> Shown {
    let line = match spot {
        Some(spot) => spot.line,
        None => 0,
    };
    let first = line.saturating_sub(LINES_BEFORE);
    Shown {
        first,
        end: first.saturating_add(LINES).min(count.max(line)),
    }
}

fn push_numbers(out: &mut String, shown: Shown) -> Result<(), AllocError> {
    for number in shown.first..shown.end {
        writeln!(out, "{}", number.saturating_add(1))?;
    }
    Ok(())
}

fn push_lines(
    out: &mut String,
    text: &str,
    shown: Shown,
    spot: Option<Spot>,
) -> Result<(), AllocError> {
    let count = shown.end.saturating_sub(shown.first);
    for (place, line) in text.lines().enumerate().skip(shown.first).take(count) {
        match spot {
            Some(spot) if spot.line == place.saturating_add(1) => push_marked(out, line, spot)?,
            _ => push_plain(out, line)?,
        }
    }
    Ok(())
}

fn push_plain(out: &mut String, line: &str) -> Result<(), AllocError> {
    push_part(out, line, 0, WIDTH)?;
    if line.chars().nth(WIDTH).is_some() {
        out.push_str("…")?;
    }
    out.push_str("\n")
}

/// Appends the line in which a place is, with a mark at it.
fn push_marked(out: &mut String, line: &str, spot: Spot) -> Result<(), AllocError> {
    out.push_str("<b class=\"marked\">")?;
    match spot.column {
        Some(column) => push_around(out, line, column.saturating_sub(1), spot.width.max(1))?,
        None => push_part(out, line, 0, WIDTH)?,
    }
    out.push_str("</b>\n")
}

/// Appends a line with a mark around so many of its characters, behind so many others.
fn push_around(
    out: &mut String,
    line: &str,
    before: usize,
    count: usize,
) -> Result<(), AllocError> {
    let left_out = before.saturating_sub(BEFORE);
    push_part(out, line, left_out, before.saturating_sub(left_out))?;
    out.push_str("<mark>")?;
    out.push_str(if line.chars().nth(before).is_some() {
        ""
    } else {
        " "
    })?;
    push_part(out, line, before, count.min(WIDTH))?;
    out.push_str("</mark>")?;
    push_part(out, line, before.saturating_add(count), WIDTH)
}

/// Appends so many characters of a line, behind so many others.
fn push_part(
    out: &mut String,
    line: &str,
    left_out: usize,
    count: usize,
) -> Result<(), AllocError> {
    for c in line.chars().skip(left_out).take(count) {
        push_character(out, c)?;
    }
    Ok(())
}
