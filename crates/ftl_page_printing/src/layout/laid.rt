//! Schedules and documents: what stands between two brackets in one line where it fits, else one
//! level to the right of them.

use crate::layout::gaps::{Manner, closes, opens};
use crate::layout::grammar::grammar_in_lines;
use crate::layout::groups::{lengths_of, space_before};
use crate::layout::lines::Lines;
use ftl_tokens::{Kind, Token, TokenizedText};
use std::alloc::{AllocError, Global};

/// How many bytes a line has at most, where its tokens allow that.
const MOST: usize = 100;

/// The tokens of a text in lines.
pub fn laid_out(alloc: Global, text: &TokenizedText, manner: Manner) -> Result<String, AllocError> {
    match manner {
        Manner::Grammar => grammar_in_lines(alloc, text),
        _ => groups_in_lines(alloc, text, manner),
    }
}

/// A text whose groups are gone through.
#[derive(Clone, Copy)]
struct Groups<'t> {
    tokens: &'t [Token],
    lengths: &'t [usize],
    manner: Manner,
}

fn groups_in_lines(
    alloc: Global,
    text: &TokenizedText,
    manner: Manner,
) -> Result<String, AllocError> {
    let tokens = text.list();
    let lengths = lengths_of(alloc, tokens, manner)?;
    let groups = Groups {
        tokens,
        lengths: lengths.as_slice(),
        manner,
    };
    let mut lines = Lines::new(alloc);
    // Of each open group whether it stands in more than one line.
    let mut broken = Vec::new(alloc);
    for place in 0..tokens.len() {
        let kind = tokens[place].kind;
        let breaks = groups.breaks_before(place, is_broken(broken.as_slice()), lines.column());
        if closes(kind) {
            let _ = broken.pop();
        }
        if breaks {
            lines.begin(broken.len())?;
            lines.push(0, text.slice(place))?;
        } else {
            lines.push(groups.space_before(place), text.slice(place))?;
        }
        if opens(kind) {
            let inside = is_broken(broken.as_slice());
            broken.push(inside && !groups.fits(place, lines.column()))?;
        }
    }
    lines.finish()
}

/// Whether the group around stands in more than one line; so does what no group is around.
fn is_broken(broken: &[bool]) -> bool {
    match broken.last() {
        Some(broken) => *broken,
        None => true,
    }
}

impl<'t> Groups<'t> {
    fn kind_at(&self, place: usize) -> Option<Kind> {
        match self.tokens.get(place) {
            Some(token) => Some(token.kind),
            None => None,
        }
    }

    fn length_at(&self, place: usize) -> usize {
        match self.lengths.get(place) {
            Some(length) => *length,
            None => 0,
        }
    }

    fn space_before(&self, place: usize) -> usize {
        space_before(self.tokens, place, self.manner)
    }

    /// Whether a group fits into the line in which its bracket ends at this column.
    fn fits(&self, place: usize, column: usize) -> bool {
        column.saturating_add(self.length_at(place)) <= MOST + 1
    }

    /// Whether a line ends before a token that stands in a group in more than one line.
    fn breaks_before(&self, place: usize, broken: bool, column: usize) -> bool {
        let (Some(last), Some(kind)) = (self.kind_at(place.wrapping_sub(1)), self.kind_at(place))
        else {
            return false;
        };
        if !broken {
            return false;
        }
        if opens(last) || closes(kind) {
            return true;
        }
        match self.manner {
            Manner::Schedule => self.breaks_schedule(place, last, kind, column),
            _ => self.breaks_document(place, last, kind, column),
        }
    }

    /// A stage begins a line, and so does an attribute for which the line has no room.
    fn breaks_schedule(&self, place: usize, last: Kind, kind: Kind, column: usize) -> bool {
        if last == Kind::Semicolon {
            return true;
        }
        let behind_attribute = self.kind_at(place.wrapping_sub(2)) == Some(Kind::Dot);
        let long = self
            .length_at(place)
            .saturating_add(self.length_at(place.saturating_add(2)));
        kind == Kind::Name && behind_attribute && column.saturating_add(long) > MOST - 2
    }

    /// A node of a list begins a line, and so does each field but a number behind a number, where
    /// the line has room for it.
    fn breaks_document(&self, place: usize, last: Kind, kind: Kind, column: usize) -> bool {
        if kind != Kind::Name || last == Kind::Equals {
            return false;
        }
        let value = place.saturating_add(2);
        let is_number = match self.kind_at(value) {
            Some(Kind::Number) | Some(Kind::Minus) => true,
            _ => false,
        };
        let long = self
            .length_at(place)
            .saturating_add(self.length_at(value))
            .saturating_add(self.length_at(value.saturating_add(1)));
        last != Kind::Number || !is_number || column.saturating_add(long) > MOST - 4
    }
}
