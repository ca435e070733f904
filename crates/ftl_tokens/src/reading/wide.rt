//! The tokens that are left to read of a text whose numbers have up to 48 bits.

ghost use Rattle.std.specs.Prelude.{◌≡◌, ◌∷◌, ◌≤◌, length, if◌then◌else◌, IfOk, MatchResult};
ghost use Rattle.ftl_tokens.specs.scanner.Tokenized.{name, number, symbols_of};
ghost use Rattle.ftl_tokens.specs.reading.Reader as spec;
ghost use Rattle.ftl_tokens.specs.reading.Reader.{Reads, IsFixed, TakesAtMostOne, AreAtMost};

use crate::reading::fault::ReadFault;
use crate::scanner::{Kind, Name, TokenizedText, WideScanned};
use std::alloc::Global;
use std::marker::Model;

/// The tokens of a document from some place on. Contracts see what they say, as a list of symbols.
#[derive(Drop)]
pub struct WideInput<'a> {
    scanned: &'a TokenizedText,
    at: usize,
}

impl<'a> Model for WideInput<'a> {
    ghost use Rattle.std.specs.Prelude.{◌≤◌, drop, length};
    ghost use Rattle.ftl_tokens.specs.scanner.Tokenized.{symbols_of};
    ghost use Rattle.ftl_tokens.specs.reading.Reader.{Tokens};

    ghost Value = { Tokens };

    ghost view = { λ i. drop i.at (symbols_of i.scanned.now) };

    ghost invariant = { λ i. i.at ≤ length i.scanned.now.tokens };
}

impl<'a> WideInput<'a> {
    /// All tokens of the document.
    pub fn new(scanned: &'a WideScanned) -> WideInput<'a>
        ensures tokens { result ≡ symbols_of scanned.now.tokenized }
        ensures numbers { AreAtMost scanned.now.greatest result }
    {
        WideInput::over(scanned.tokenized())
    }

    /// All tokens of the text.
    pub(crate) fn over(scanned: &'a TokenizedText) -> WideInput<'a>
        ensures tokens { result ≡ symbols_of scanned.now }
    {
        WideInput { scanned, at: 0 }
    }

    /// The kind of the next token, if there is one.
    pub fn peek(&self) -> Option<Kind>
        ensures kind { result ≡ spec.next_kind self.now }
    {
        let list = self.scanned.list();
        if self.at < list.len() {
            Some(list[self.at].kind)
        } else {
            None
        }
    }

    /// How many tokens are left.
    pub fn left(&self) -> usize
        ensures count { result ≡ length self.now }
    {
        self.scanned.list().len() - self.at
    }

    /// Takes the next token, if there is one.
    pub fn skip(&mut self)
        ensures rest { self.new ≡ spec.rest_of self.old }
    {
        if self.at < self.scanned.list().len() {
            self.at += 1;
        }
    }

    /// Whether the next token is the reserved word or the mark of this kind.
    #[tactic(auto, using(crate::proofs::reading::Steps::steps), unfolding(crate::specs::reading::Reader::same_kind))]
    pub fn is_at(&self, kind: Kind) -> bool
        requires fixed { IsFixed kind }
        ensures kind { result ≡ spec.is_at kind self.now }
    {
        match self.peek() {
            Some(found) => found == kind,
            None => false,
        }
    }

    /// Takes a reserved word or a mark.
    #[tactic(auto, using(crate::proofs::reading::Steps::steps))]
    pub fn expect(&mut self, kind: Kind) -> Result<(), ReadFault>
        requires fixed { IsFixed kind }
        ensures reads { Reads (spec.expect kind self.old) result self.new }
        ensures step { TakesAtMostOne self.old self.new }
    {
        if !self.is_at(kind) {
            return Err(ReadFault::Refused);
        }
        self.skip();
        Ok(())
    }

    /// Takes a name.
    #[tactic(auto, using(crate::proofs::reading::Steps::steps))]
    pub fn name(&mut self, alloc: Global) -> Result<Name, ReadFault>
        ensures reads { Reads (spec.take_name self.old) result self.new }
        ensures step { TakesAtMostOne self.old self.new }
    {
        match self.peek() {
            Some(Kind::Name) => {
                let name = Name::new(alloc, self.text())?;
                self.skip();
                Ok(name)
            }
            _ => Err(ReadFault::Refused),
        }
    }

    /// Takes a name, and lends its text. No memory is taken, so there is no other fault.
    #[tactic(auto, using(crate::proofs::reading::Steps::steps))]
    pub fn name_text(&mut self) -> Result<&'a str, ReadFault>
        ensures text { MatchResult result
            (λ text. spec.take_name self.old ≡ Ok (text.now, self.new))
            (λ _. spec.take_name self.old ≡ Err self.new) }
        ensures step { TakesAtMostOne self.old self.new }
    {
        match self.peek() {
            Some(Kind::Name) => {
                let text = self.text();
                self.skip();
                Ok(text)
            }
            _ => Err(ReadFault::Refused),
        }
    }

    /// Takes a name of this text, if one comes next, and tells whether it did.
    pub fn take_name_of(&mut self, text: &str) -> bool
        ensures taken { result ≡ spec.is_name text.now self.old }
        ensures left { self.new ≡ (if result then spec.rest_of self.old else self.old) }
        ensures step { TakesAtMostOne self.old self.new }
    {
        let found = self.is_name(text);
        if found {
            self.skip();
        }
        found
    }

    /// Takes a number.
    #[tactic(auto, using(crate::proofs::reading::Steps::steps))]
    pub fn number(&mut self) -> Result<u64, ReadFault>
        ensures reads { Reads (spec.take_number self.old) result self.new }
        ensures small { IfOk result (λ n. n ≤ 140737488355327) }
        ensures step { TakesAtMostOne self.old self.new }
    {
        match self.peek() {
            Some(Kind::Number) => {
                let value = self.value();
                self.skip();
                Ok(value)
            }
            _ => Err(ReadFault::Refused),
        }
    }

    /// Takes a number that isn't 0.
    #[tactic(auto, using(crate::proofs::reading::Steps::steps))]
    pub fn positive(&mut self) -> Result<u64, ReadFault>
        ensures reads { Reads (spec.take_positive self.old) result self.new }
        ensures small { IfOk result (λ n. n ≤ 140737488355327) }
        ensures step { TakesAtMostOne self.old self.new }
    {
        match self.peek() {
            Some(Kind::Number) => {
                let value = self.value();
                if value == 0 {
                    return Err(ReadFault::Refused);
                }
                self.skip();
                Ok(value)
            }
            _ => Err(ReadFault::Refused),
        }
    }

    /// All tokens were taken.
    #[tactic(auto, using(crate::proofs::reading::Steps::steps))]
    pub fn end(&self) -> Result<(), ReadFault>
        ensures reads { Reads (spec.at_end self.now) result self.now }
    {
        match self.peek() {
            Some(_) => Err(ReadFault::Refused),
            None => Ok(()),
        }
    }

    #[tactic(auto, using(crate::proofs::reading::Steps::steps))]
    fn is_name(&self, text: &str) -> bool
        ensures name { result ≡ spec.is_name text.now self.now }
    {
        match self.peek() {
            Some(Kind::Name) => self.text() == text,
            _ => false,
        }
    }

    /// The characters of the next token, which is a name.
    fn text(&self) -> &'a str
        requires name { spec.next_kind self.now ≡ Some Kind.Name }
        ensures text { self.now ≡ name result.now ∷ spec.rest_of self.now }
    {
        self.scanned.slice(self.at)
    }

    /// The value of the next token, which is a number.
    fn value(&self) -> u64
        requires number { spec.next_kind self.now ≡ Some Kind.Number }
        ensures value { self.now ≡ number result ∷ spec.rest_of self.now }
        ensures small { result ≤ 140737488355327 }
    {
        self.scanned.number(self.at)
    }
}
