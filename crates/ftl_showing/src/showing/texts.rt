//! The texts of a page.

use ftl_answer::reading::{Undecided, read_page};
use ftl_page::{Need, Page, Text};
use maugzeris::Width;
use std::alloc::Global;

/// The width of a page and the texts of its sections; of the automatic schedule none.
#[derive(Drop)]
pub struct Texts {
    pub width: Width,
    pub grammar: String,
    pub schedule: Option<String>,
    pub document: String,
    pub edits: String,
}

/// The texts of the page of these bytes; those of the edits only where they are asked for and there
/// are some.
pub fn texts_of(alloc: Global, bytes: &[u8], edits: bool) -> Result<Texts, Undecided> {
    let need = Need {
        schedule: true,
        document: true,
        edits: edits && has_edits(bytes),
    };
    let page = read_page(alloc, bytes, need)?;
    let Page {
        width,
        grammar,
        schedule,
        document,
        edits,
    } = page;
    Ok(Texts {
        width,
        grammar: grammar.into_string(),
        schedule: schedule.map(Text::into_string),
        document: string_of(alloc, document),
        edits: string_of(alloc, edits),
    })
}

/// The name behind the heading of the grammar, if one stands there.
pub fn grammar_name(text: &str) -> Option<&str> {
    for line in text.lines() {
        if line.starts_with("%grammar") {
            return line.split_whitespace().nth(1);
        }
    }
    None
}

/// Whether a heading names edits.
pub fn has_edits(bytes: &[u8]) -> bool {
    let text = str::from_utf8(bytes).unwrap_or("");
    text.lines().any(|line| line.starts_with("%edits"))
}

/// The text, or none at all where there is no such section.
fn string_of(alloc: Global, text: Option<Text>) -> String {
    match text {
        Some(text) => text.into_string(),
        None => String::new(alloc),
    }
}

impl Texts {
    /// The text of the schedule, unless it is the automatic one.
    pub fn schedule_text(&self) -> Option<&str> {
        match &self.schedule {
            Some(text) => Some(text.as_str()),
            None => None,
        }
    }
}
