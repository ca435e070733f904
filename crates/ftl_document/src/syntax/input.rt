//! The tokens that are left to read of a document, whether they stand in a list or are found in the
//! text as they are asked for.

ghost use Rattle.std.specs.Prelude.{◌≡◌, ◌≤◌, ◌<◌, length, IfOk, OnOk, MatchResult};
ghost use Rattle.ftl_tokens.specs.reading.Reader as spec;
ghost use Rattle.ftl_tokens.specs.reading.Reader.{Reads, IsFixed};

use crate::plain::TextInput;
use ftl_tokens::{Kind, ReadFault, WideInput};
use std::marker::Model;

/// Where tokens come from.
#[derive(Drop)]
pub(crate) enum Source<'a> {
    Scanned(WideInput<'a>),
    Text(TextInput<'a>),
}

/// The tokens of a document from some place on. Contracts see what they say.
#[derive(Drop)]
pub(crate) struct DocumentInput<'a> {
    source: Source<'a>,
}

impl<'a> Model for DocumentInput<'a> {
    ghost use Rattle.ftl_tokens.specs.reading.Reader.{Tokens};
    ghost use Rattle.ftl_document.specs.syntax.Source.{tokens_of};

    ghost Value = { Tokens };

    ghost view = { λ i. tokens_of i.source };
}

impl<'a> DocumentInput<'a> {
    pub(crate) fn scanned(input: WideInput<'a>) -> DocumentInput<'a>
        ensures tokens { result ≡ input.entry }
    {
        DocumentInput {
            source: Source::Scanned(input),
        }
    }

    pub(crate) fn text(input: TextInput<'a>) -> DocumentInput<'a>
        ensures tokens { result ≡ input.entry }
    {
        DocumentInput {
            source: Source::Text(input),
        }
    }

    /// The kind of the next token, if there is one.
    #[inline(always)]
    pub(crate) fn peek(&self) -> Option<Kind>
        ensures kind { result ≡ spec.next_kind self.now }
    {
        match &self.source {
            Source::Scanned(input) => input.peek(),
            Source::Text(input) => input.peek(),
        }
    }

    /// How many tokens are left.
    pub(crate) fn left(&self) -> usize
        ensures count { result ≡ length self.now }
    {
        match &self.source {
            Source::Scanned(input) => input.left(),
            Source::Text(input) => input.left(),
        }
    }

    /// Takes the next token, if there is one.
    #[inline(always)]
    #[tactic(auto, using(crate::proofs::syntax::TokensTaken::rest_takes))]
    pub(crate) fn skip(&mut self)
        ensures rest { self.new ≡ spec.rest_of self.old }
        ensures takes { length self.new ≤ length self.old }
    {
        match &mut self.source {
            Source::Scanned(input) => input.skip(),
            Source::Text(input) => input.skip(),
        }
    }

    /// Takes a reserved word or a mark.
    #[inline(always)]
    #[tactic(auto, using(crate::proofs::syntax::TokensTaken::expect_takes))]
    pub(crate) fn expect(&mut self, kind: Kind) -> Result<(), ReadFault>
        requires fixed { IsFixed kind }
        ensures reads { Reads (spec.expect kind self.old) result self.new }
        ensures takes { OnOk result (length self.new < length self.old) }
    {
        match &mut self.source {
            Source::Scanned(input) => input.expect(kind),
            Source::Text(input) => input.expect(kind),
        }
    }

    /// Takes a name, and lends its text. No memory is taken, so there is no other fault.
    #[inline(always)]
    #[tactic(auto, using(crate::proofs::syntax::TokensTaken::name_takes))]
    pub(crate) fn name_text(&mut self) -> Result<&'a str, ReadFault>
        ensures text { MatchResult result
            (λ text. spec.take_name self.old ≡ Ok (text.now, self.new))
            (λ _. spec.take_name self.old ≡ Err self.new) }
        ensures takes { OnOk result (length self.new < length self.old) }
    {
        match &mut self.source {
            Source::Scanned(input) => input.name_text(),
            Source::Text(input) => input.name_text(),
        }
    }

    /// Takes a number.
    #[inline(always)]
    #[tactic(auto, using(crate::proofs::syntax::TokensTaken::number_takes))]
    pub(crate) fn number(&mut self) -> Result<u64, ReadFault>
        ensures reads { Reads (spec.take_number self.old) result self.new }
        ensures small { IfOk result (λ n. n ≤ 140737488355327) }
        ensures takes { OnOk result (length self.new < length self.old) }
    {
        match &mut self.source {
            Source::Scanned(input) => input.number(),
            Source::Text(input) => input.number(),
        }
    }

    /// All tokens were taken.
    pub(crate) fn end(&self) -> Result<(), ReadFault>
        ensures reads { Reads (spec.at_end self.now) result self.now }
    {
        match &self.source {
            Source::Scanned(input) => input.end(),
            Source::Text(input) => input.end(),
        }
    }
}
