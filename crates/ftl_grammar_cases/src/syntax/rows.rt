//! Rows, a line each. The first word says what the rest is:
//!
//! - `in`: what stands around the rows that follow, with `~` where each of them goes
//! - `is`: a text that is read; or that goes wrong at the `@`; or that is too deep at the `^`
//! - `text`: the same, of the lines to `end`
//! - `cuts`: how many of the fronts of the last text are read, and how many have another answer
//!   than a place in them
//! - `has`: the names of the last text, with how much each has
//! - `rule`: a class and a rule of the last text, by number, and the rule form by form
//!
//! A part `` `64 (` `` of a text stands for 64 times `(`. Other lines are no rows.

use crate::repeated::push_repeated;
use crate::syntax::{write_answer, write_counts, write_cuts, write_rule};
use std::alloc::{AllocError, Global};
use std::fmt::Write;

/// The rows that are answered otherwise than they say, and how many rows there are.
pub(crate) fn write_rows(alloc: Global, out: &mut String, text: &str) -> Result<(), AllocError> {
    let mut rows = Rows::new(alloc);
    let count = write_otherwise(alloc, out, &mut rows, text)?;
    write!(out, "{count} rows\n")
}

/// Writes those rows, and counts all.
fn write_otherwise(
    alloc: Global,
    out: &mut String,
    rows: &mut Rows,
    text: &str,
) -> Result<u64, AllocError> {
    let mut count = 0u64;
    for line in text.lines() {
        if rows.take(alloc, line)? {
            count = count.wrapping_add(1);
            rows.write_otherwise(out, line)?;
        }
    }
    Ok(count)
}

#[derive(Drop)]
struct Rows {
    frame: String,
    text: String,
    in_text: bool,
    // What was wanted and what was found of the last row that was judged.
    wanted: String,
    found: String,
}

impl Rows {
    fn new(alloc: Global) -> Rows {
        Rows {
            frame: String::new(alloc),
            text: String::new(alloc),
            in_text: false,
            wanted: String::new(alloc),
            found: String::new(alloc),
        }
    }

    /// Writes the last row that was judged, where it is answered otherwise than it says.
    fn write_otherwise(&self, out: &mut String, line: &str) -> Result<(), AllocError> {
        let (wanted, found) = (self.wanted.as_str(), self.found.as_str());
        if wanted == found {
            return Ok(());
        }
        write!(out, "{line}\n  wanted: {wanted}\n  found: {found}\n")
    }

    /// Whether a line is a row that is judged.
    fn take(&mut self, alloc: Global, line: &str) -> Result<bool, AllocError> {
        if self.in_text {
            return self.text_line(alloc, line);
        }
        if line == "text" {
            self.text.clear();
            self.in_text = true;
            return Ok(false);
        }
        let (word, rest) = line.split_once(' ').unwrap_or(("", ""));
        if word == "in" {
            self.frame.clear();
            self.frame.push_str(rest)?;
            return Ok(false);
        }
        self.judged(alloc, word, rest)
    }

    // A line of a text, or its end.
    fn text_line(&mut self, alloc: Global, line: &str) -> Result<bool, AllocError> {
        if line != "end" {
            self.text.push_str(line)?;
            self.text.push('\n')?;
            return Ok(false);
        }
        self.in_text = false;
        let marked = String::from_str(alloc, self.text.as_str())?;
        self.marked(alloc, marked.as_str())?;
        Ok(true)
    }

    // Judges a row by its first word.
    fn judged(&mut self, alloc: Global, word: &str, rest: &str) -> Result<bool, AllocError> {
        if word == "is" {
            let framed = self.framed(alloc, rest)?;
            self.marked(alloc, framed.as_str())?;
            return Ok(true);
        }
        self.wanted.clear();
        self.wanted.push_str(rest)?;
        self.found.clear();
        let text = self.text.as_str();
        if word == "cuts" {
            write_cuts(alloc, &mut self.found, text)?;
        } else if word == "has" {
            write_counts(alloc, &mut self.found, text)?;
        } else if word == "rule" {
            write_rule(alloc, &mut self.found, text, rest)?;
        } else {
            return Ok(false);
        }
        Ok(true)
    }

    // A row where the frame has `~`.
    fn framed(&self, alloc: Global, row: &str) -> Result<String, AllocError> {
        let mut whole = String::new(alloc);
        let (before, after) = self.frame.as_str().split_once('~').unwrap_or(("", ""));
        whole.push_str(before)?;
        repeat_parts(&mut whole, row)?;
        whole.push_str(after)?;
        Ok(whole)
    }

    // Whether a text is read, or goes wrong at its mark.
    fn marked(&mut self, alloc: Global, marked: &str) -> Result<(), AllocError> {
        let (front, back) = split_at_mark(marked);
        self.text.clear();
        self.text.push_str(front)?;
        self.text.push_str(back)?;
        self.wanted.clear();
        write_wanted(&mut self.wanted, marked, front.len())?;
        self.found.clear();
        write_answer(alloc, &mut self.found, self.text.as_str())
    }
}

/// What stands before and after the mark of a text; all of it before, where it has none.
fn split_at_mark(text: &str) -> (&str, &str) {
    match text.split_once('@') {
        Some(parts) => parts,
        None => text.split_once('^').unwrap_or((text, "")),
    }
}

/// The answer that the mark of a text asks for, at this place.
fn write_wanted(out: &mut String, text: &str, at: usize) -> Result<(), AllocError> {
    if text.contains('@') {
        write!(out, "syntax at {at}")
    } else if text.contains('^') {
        write!(out, "too deep at {at}")
    } else {
        out.push_str("read")
    }
}

/// A text with each part between backquotes repeated as often as it says.
fn repeat_parts(out: &mut String, row: &str) -> Result<(), AllocError> {
    let mut inside = false;
    for part in row.split('`') {
        if inside {
            push_repeated(out, part, "")?;
        } else {
            out.push_str(part)?;
        }
        inside = !inside;
    }
    Ok(())
}
