//! The texts of a page, and their tokens.

use crate::marks::mark_of;
use crate::outline::{Outline, Part, grammar_parts};
use crate::places::Place;
use crate::tokens::{scanned_document, scanned_text};
use ftl_page::Section;
use ftl_tokens::{Scanned, TokenizedText, WideScanned};
use std::alloc::{AllocError, Global};
use std::fmt::Write;

/// The file of a page and the texts of its sections; of the automatic schedule none, and no edits
/// where they were not read.
#[derive(Clone, Copy)]
pub struct Sources<'s> {
    pub file: &'s [u8],
    pub grammar: &'s str,
    pub schedule: Option<&'s str>,
    pub document: &'s str,
    pub edits: &'s str,
    /// Whether its numbers have 48 bits.
    pub wide: bool,
}

/// The tokens of the sections, of each that has nothing but tokens, and the parts of the grammar.
#[derive(Drop)]
pub struct Scans {
    grammar: Option<Scanned>,
    parts: Vec<Part>,
    schedule: Option<Scanned>,
    document: Option<WideScanned>,
}

/// The tokens of the sections of a page.
pub fn scans_of(alloc: Global, sources: Sources<'_>) -> Result<Scans, AllocError> {
    let grammar = scanned_text(alloc, sources.grammar)?;
    let parts = match &grammar {
        Some(scanned) => grammar_parts(alloc, scanned.tokenized())?,
        None => Vec::new(alloc),
    };
    let schedule = match sources.schedule {
        Some(text) => scanned_text(alloc, text)?,
        None => None,
    };
    let document = scanned_document(alloc, sources.document, sources.wide)?;
    Ok(Scans {
        grammar,
        parts,
        schedule,
        document,
    })
}

/// A refused page: its texts with their tokens.
#[derive(Drop)]
pub struct Case<'c> {
    pub sources: Sources<'c>,
    pub scans: &'c Scans,
}

impl<'c> Case<'c> {
    /// The tokens of a section.
    pub fn tokens(&self, section: Section) -> Option<&'c TokenizedText> {
        match section {
            Section::Grammar => tokens_of(&self.scans.grammar),
            Section::Schedule => tokens_of(&self.scans.schedule),
            Section::Document => match &self.scans.document {
                Some(scanned) => Some(scanned.tokenized()),
                None => None,
            },
            Section::Edits => None,
        }
    }

    /// The text of a section; none at all where it does not stand there.
    pub fn text(&self, section: Section) -> &'c str {
        match section {
            Section::Grammar => self.sources.grammar,
            Section::Schedule => self.sources.schedule.unwrap_or(""),
            Section::Document => self.sources.document,
            Section::Edits => self.sources.edits,
        }
    }

    /// The grammar's tokens with their parts.
    pub fn outline(&self) -> Option<Outline<'c>> {
        Some(Outline {
            tokens: self.tokens(Section::Grammar)?,
            parts: self.scans.parts.as_slice(),
        })
    }

    /// The place of a token in the file; none where the section does not stand there.
    pub fn place(&self, section: Section, token: usize) -> Option<Place> {
        let scanned = self.tokens(section)?;
        let start = scanned.list().get(token)?.start as usize;
        let word = heading_word(section).as_bytes();
        let mark = mark_of(self.sources.file, word, scanned.text().as_bytes(), start)?;
        Some(mark.place)
    }

    /// Appends ` at 3:7`, the place of a token in the file; nothing where it does not stand there.
    pub fn push_at(
        &self,
        out: &mut String,
        section: Section,
        token: usize,
    ) -> Result<(), AllocError> {
        match self.place(section, token) {
            Some(Place { line, column }) => write!(out, " at {line}:{column}"),
            None => Ok(()),
        }
    }
}

fn tokens_of(scanned: &Option<Scanned>) -> Option<&TokenizedText> {
    match scanned {
        Some(scanned) => Some(scanned.tokenized()),
        None => None,
    }
}

/// The first word of the heading of a section.
pub fn heading_word(section: Section) -> &'static str {
    match section {
        Section::Grammar => "%grammar",
        Section::Schedule => "%schedule",
        Section::Document => "%document",
        Section::Edits => "%edits",
    }
}
