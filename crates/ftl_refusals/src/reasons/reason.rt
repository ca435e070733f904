//! What is found out of a refusal.

use ftl_page::Section;
use std::alloc::{AllocError, Global};

/// Tokens of a section that are marked: from the first to the last, and what the first one says.
#[derive(Clone, Copy)]
pub struct Range<'l> {
    pub section: Section,
    pub first: usize,
    pub last: usize,
    pub name: &'l str,
}

/// What is found out of a refusal: the tokens that are meant, if they are found, and notes, each a
/// line.
#[derive(Drop)]
pub struct Reason<'l> {
    pub range: Option<Range<'l>>,
    pub notes: String,
}

impl<'l> Reason<'l> {
    /// Nothing is found out.
    pub fn silent(alloc: Global) -> Reason<'l> {
        Reason {
            range: None,
            notes: String::new(alloc),
        }
    }

    /// A token of a section is meant, which says this.
    pub fn at(alloc: Global, section: Section, token: Option<usize>, name: &'l str) -> Reason<'l> {
        Reason::over(alloc, section, token, name, 0)
    }

    /// A token of a section is meant, which says this, and so many behind it.
    pub fn over(
        alloc: Global,
        section: Section,
        token: Option<usize>,
        name: &'l str,
        more: usize,
    ) -> Reason<'l> {
        let range = match token {
            Some(first) => Some(Range {
                section,
                first,
                last: first.saturating_add(more),
                name,
            }),
            None => None,
        };
        Reason {
            range,
            notes: String::new(alloc),
        }
    }

    /// The same with one more note.
    pub fn with(self, note: &str) -> Result<Reason<'l>, AllocError> {
        let Reason { range, notes } = self;
        let mut notes = notes;
        notes.push_str(note)?;
        notes.push_str("\n")?;
        Ok(Reason { range, notes })
    }
}
