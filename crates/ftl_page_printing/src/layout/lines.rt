//! Lines with indentation.

use std::alloc::{AllocError, Global};

/// How many levels of indentation are shown at most.
const LEVELS: usize = 20;

/// A text, and how many bytes its last line has.
#[derive(Drop)]
pub struct Lines {
    text: String,
    column: usize,
}

impl Lines {
    pub fn new(alloc: Global) -> Lines {
        Lines {
            text: String::new(alloc),
            column: 0,
        }
    }

    pub fn column(&self) -> usize {
        self.column
    }

    /// Appends a token behind so many spaces.
    pub fn push(&mut self, spaces: usize, token: &str) -> Result<(), AllocError> {
        self.push_spaces(spaces)?;
        self.column = self.column.saturating_add(token.len());
        self.text.push_str(token)
    }

    /// Begins a line so many levels to the right.
    pub fn begin(&mut self, level: usize) -> Result<(), AllocError> {
        self.text.push_str("\n")?;
        self.column = 0;
        self.push_spaces(level.min(LEVELS) * 2)
    }

    fn push_spaces(&mut self, count: usize) -> Result<(), AllocError> {
        for _space in 0..count {
            self.text.push_str(" ")?;
        }
        self.column = self.column.saturating_add(count);
        Ok(())
    }

    /// The text, its last line ended.
    pub fn finish(self) -> Result<String, AllocError> {
        let Lines { text, column: _ } = self;
        let mut text = text;
        text.push_str("\n")?;
        Ok(text)
    }
}
