//! The tokens that are left to read.

ghost use Rattle.std.specs.Prelude.{◌≡◌, ◌≤◌, length, if◌then◌else◌, IfOk, MatchResult};
ghost use Rattle.ftl_tokens.specs.scanner.Tokenized.{symbols_of};
ghost use Rattle.ftl_tokens.specs.reading.Reader as spec;
ghost use Rattle.ftl_tokens.specs.reading.Reader.{Reads, IsFixed};

use crate::reading::fault::ReadFault;
use crate::reading::wide::WideInput;
use crate::scanner::{Kind, Name, Scanned};
use std::alloc::Global;
use std::marker::Model;

/// The tokens of a text from some place on, whose numbers fit 31 bits. Contracts see what they say,
/// as a list of symbols.
#[derive(Drop)]
pub struct Input<'a> {
    wide: WideInput<'a>,
}

impl<'a> Model for Input<'a> {
    ghost use Rattle.ftl_tokens.specs.reading.Reader.{Tokens, AreAtMost};

    ghost Value = { Tokens };

    ghost view = { λ i. i.wide };

    ghost invariant = { λ i. AreAtMost 2147483647 i.wide };
}

impl<'a> Input<'a> {
    /// All tokens of the text.
    pub fn new(scanned: &'a Scanned) -> Input<'a>
        ensures tokens { result ≡ symbols_of scanned.now }
    {
        Input {
            wide: WideInput::over(scanned.tokenized()),
        }
    }

    /// The kind of the next token, if there is one.
    pub fn peek(&self) -> Option<Kind>
        ensures kind { result ≡ spec.next_kind self.now }
    {
        self.wide.peek()
    }

    /// How many tokens are left.
    pub fn left(&self) -> usize
        ensures count { result ≡ length self.now }
    {
        self.wide.left()
    }

    /// Takes the next token, if there is one.
    pub fn skip(&mut self)
        ensures rest { self.new ≡ spec.rest_of self.old }
    {
        self.wide.skip();
    }

    /// Whether the next token is the reserved word or the mark of this kind.
    pub fn is_at(&self, kind: Kind) -> bool
        requires fixed { IsFixed kind }
        ensures kind { result ≡ spec.is_at kind self.now }
    {
        self.wide.is_at(kind)
    }

    /// Takes a reserved word or a mark.
    pub fn expect(&mut self, kind: Kind) -> Result<(), ReadFault>
        requires fixed { IsFixed kind }
        ensures reads { Reads (spec.expect kind self.old) result self.new }
    {
        self.wide.expect(kind)
    }

    /// Takes a name.
    pub fn name(&mut self, alloc: Global) -> Result<Name, ReadFault>
        ensures reads { Reads (spec.take_name self.old) result self.new }
    {
        self.wide.name(alloc)
    }

    /// Takes a name, and lends its text. No memory is taken, so there is no other fault.
    pub fn name_text(&mut self) -> Result<&'a str, ReadFault>
        ensures reads { MatchResult result
            (λ text. spec.take_name self.old ≡ Ok (text.now, self.new))
            (λ _. spec.take_name self.old ≡ Err self.new) }
    {
        self.wide.name_text()
    }

    /// Takes a name of this text, if one comes next, and tells whether it did.
    pub fn take_name_of(&mut self, text: &str) -> bool
        ensures taken { result ≡ spec.is_name text.now self.old }
        ensures left { self.new ≡ (if result then spec.rest_of self.old else self.old) }
    {
        self.wide.take_name_of(text)
    }

    /// Takes a number.
    pub fn number(&mut self) -> Result<u32, ReadFault>
        ensures reads { Reads (spec.take_number self.old) result self.new }
        ensures small { IfOk result (λ n. n ≤ 2147483647) }
    {
        let number = self.wide.number()?;
        Ok(number as u32)
    }

    /// Takes a number that isn't 0.
    pub fn positive(&mut self) -> Result<u32, ReadFault>
        ensures reads { Reads (spec.take_positive self.old) result self.new }
        ensures small { IfOk result (λ n. n ≤ 2147483647) }
    {
        let number = self.wide.positive()?;
        Ok(number as u32)
    }

    /// All tokens were taken.
    pub fn end(&self) -> Result<(), ReadFault>
        ensures reads { Reads (spec.at_end self.now) result self.now }
    {
        self.wide.end()
    }
}
