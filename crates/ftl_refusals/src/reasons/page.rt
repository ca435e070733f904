//! Faults of headings and of what stands outside the sections.

use crate::reasons::lines::told_by;
use std::alloc::{AllocError, Global};

/// Notes on the line that refuses the bytes of a page, each a line.
pub fn page_notes(alloc: Global, line: &str) -> Result<String, AllocError> {
    let mut notes = String::new(alloc);
    if let Some(note) = note_on(told_by(line)) {
        notes.push_str(note)?;
        notes.push_str("\n")?;
    }
    Ok(notes)
}

fn note_on(told: &str) -> Option<&'static str> {
    if told.starts_with("first line") {
        return Some("expected `%page 1` or `%page 2` alone in the first line");
    }
    if told.starts_with("unknown section") {
        return Some(
            "expected `%grammar`, `%schedule`, `%document` or `%edits`, and nothing behind it",
        );
    }
    if told.starts_with("unknown grammar") {
        return Some("expected `stack`, `block`, `inline`, `float`, `table` or `flow`");
    }
    if told.starts_with("stray text") {
        return Some("expected a heading, a blank line or a comment; headings begin their line");
    }
    missing_note(told)
}

fn missing_note(told: &str) -> Option<&'static str> {
    if told == "no section grammar" {
        return Some("expected a line `%grammar NAME`, or `%grammar` with a grammar below it");
    }
    if told == "no section schedule" {
        return Some("expected a line `%schedule auto`, or `%schedule` with a schedule below it");
    }
    if told == "no section document" {
        return Some("expected a line `%document` with a document below it");
    }
    if told.starts_with("section ") {
        return Some("each section stands at most once");
    }
    None
}
