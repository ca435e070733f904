//! A cursor of either width.
use ftl_tokens::{Input, Kind, ReadFault, WideInput};

/// A cursor over the tokens of a text whose numbers fit 31 bits, or of a document.
#[derive(Drop)]
pub(crate) enum Cursor<'a> {
    Narrow(Input<'a>),
    Wide(WideInput<'a>),
}

impl<'a> Cursor<'a> {
    pub(crate) fn left(&self) -> usize {
        match self {
            Cursor::Narrow(input) => input.left(),
            Cursor::Wide(input) => input.left(),
        }
    }

    pub(crate) fn peek(&self) -> Option<Kind> {
        match self {
            Cursor::Narrow(input) => input.peek(),
            Cursor::Wide(input) => input.peek(),
        }
    }

    pub(crate) fn skip(&mut self) {
        match self {
            Cursor::Narrow(input) => input.skip(),
            Cursor::Wide(input) => input.skip(),
        }
    }

    /// Takes `root`.
    pub(crate) fn root(&mut self) -> Result<(), ReadFault> {
        match self {
            Cursor::Narrow(input) => input.expect(Kind::Root),
            Cursor::Wide(input) => input.expect(Kind::Root),
        }
    }

    /// Takes `;`.
    pub(crate) fn semicolon(&mut self) -> Result<(), ReadFault> {
        match self {
            Cursor::Narrow(input) => input.expect(Kind::Semicolon),
            Cursor::Wide(input) => input.expect(Kind::Semicolon),
        }
    }

    /// Takes `(`.
    pub(crate) fn paren(&mut self) -> Result<(), ReadFault> {
        match self {
            Cursor::Narrow(input) => input.expect(Kind::LeftParen),
            Cursor::Wide(input) => input.expect(Kind::LeftParen),
        }
    }

    pub(crate) fn name(&mut self) -> Result<&'a str, ReadFault> {
        match self {
            Cursor::Narrow(input) => input.name_text(),
            Cursor::Wide(input) => input.name_text(),
        }
    }

    pub(crate) fn take_name_of(&mut self, text: &str) -> bool {
        match self {
            Cursor::Narrow(input) => input.take_name_of(text),
            Cursor::Wide(input) => input.take_name_of(text),
        }
    }

    pub(crate) fn number(&mut self) -> Result<u64, ReadFault> {
        match self {
            Cursor::Narrow(input) => input.number().map(u64::from),
            Cursor::Wide(input) => input.number(),
        }
    }

    pub(crate) fn positive(&mut self) -> Result<u64, ReadFault> {
        match self {
            Cursor::Narrow(input) => input.positive().map(u64::from),
            Cursor::Wide(input) => input.positive(),
        }
    }

    pub(crate) fn end(&self) -> Result<(), ReadFault> {
        match self {
            Cursor::Narrow(input) => input.end(),
            Cursor::Wide(input) => input.end(),
        }
    }
}
