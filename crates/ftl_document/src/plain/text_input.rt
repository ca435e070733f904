//! The tokens that are left to read of a text, found in its bytes as they are asked for.

ghost use Rattle.std.specs.Prelude.{◌≡◌, ◌≤◌, length, IfOk, MatchResult};
ghost use Rattle.ftl_tokens.specs.reading.Reader as spec;
ghost use Rattle.ftl_tokens.specs.reading.Reader.{Reads, IsFixed};
ghost use Rattle.ftl_document.specs.plain.Plain.{plain_tokens};

use crate::plain::next::{Found, Next, found_in};
use ftl_tokens::{Kind, ReadFault};
use std::marker::Model;

/// The tokens of a document's text from some place on, as long as it is plain. Contracts see what
/// they say, and that `!` comes where something is not plain.
#[derive(Drop)]
pub(crate) struct TextInput<'a> {
    next: Next<'a>,
    rest: &'a str,
    greatest: u64,
}

impl<'a> Model for TextInput<'a> {
    ghost use Rattle.std.specs.Prelude.{◌≤◌};
    ghost use Rattle.ftl_tokens.specs.reading.Reader.{Tokens};
    ghost use Rattle.ftl_document.specs.plain.Plain.{plain_tokens};
    ghost use Rattle.ftl_document.specs.plain.Found.{IsSmall, with_next};

    ghost Value = { Tokens };

    ghost view = { λ i. with_next i.next (plain_tokens i.greatest i.rest.now) };

    ghost invariant = { λ i. (i.greatest ≤ 140737488355327) × IsSmall i.next };
}

impl<'a> TextInput<'a> {
    /// All tokens of the text, whose numbers are at most `greatest`.
    pub(crate) fn new(text: &'a str, greatest: u64) -> TextInput<'a>
        requires limit { greatest ≤ 140737488355327 }
        ensures tokens { result ≡ plain_tokens greatest text.now }
    {
        let Found { next, rest } = found_in(text, greatest);
        TextInput {
            next,
            rest,
            greatest,
        }
    }

    /// The kind of the next token, if there is one.
    #[tactic(auto, unfolding(ftl_tokens::specs::reading::Reader::next_kind))]
    #[inline(always)]
    pub(crate) fn peek(&self) -> Option<Kind>
        ensures kind { result ≡ spec.next_kind self.now }
    {
        match &self.next {
            Next::End => None,
            Next::Name(_) => Some(Kind::Name),
            Next::Number(_) => Some(Kind::Number),
            Next::Mark(kind) => Some(*kind),
        }
    }

    /// How many tokens are left.
    pub(crate) fn left(&self) -> usize
        ensures count { result ≡ length self.now }
    {
        match &self.next {
            Next::End => 0,
            _ => 1 + plain_count(self.rest, self.greatest),
        }
    }

    /// Takes the next token, if there is one.
    #[tactic(auto, unfolding(ftl_tokens::specs::reading::Reader::rest_of))]
    #[inline(never)]
    pub(crate) fn skip(&mut self)
        ensures rest { self.new ≡ spec.rest_of self.old }
    {
        if let Next::End = &self.next {
            return;
        }
        let Found { next, rest } = found_in(self.rest, self.greatest);
        self.next = next;
        self.rest = rest;
    }

    /// Takes a reserved word or a mark.
    #[tactic(auto, unfolding(ftl_tokens::specs::reading::Reader::expect, ftl_tokens::specs::reading::Reader::is_at, ftl_tokens::specs::reading::Reader::rest_of, ftl_tokens::specs::reading::Reader::same_kind))]
    #[inline(always)]
    pub(crate) fn expect(&mut self, kind: Kind) -> Result<(), ReadFault>
        requires fixed { IsFixed kind }
        ensures reads { Reads (spec.expect kind self.old) result self.new }
    {
        match &self.next {
            Next::Mark(found) if *found == kind => {}
            _ => return Err(ReadFault::Refused),
        }
        self.skip();
        Ok(())
    }

    /// Takes a name, and lends its text. No memory is taken, so there is no other fault.
    #[tactic(auto, unfolding(ftl_tokens::specs::reading::Reader::take_name, ftl_tokens::specs::reading::Reader::rest_of))]
    #[inline(always)]
    pub(crate) fn name_text(&mut self) -> Result<&'a str, ReadFault>
        ensures text { MatchResult result
            (λ text. spec.take_name self.old ≡ Ok (text.now, self.new))
            (λ _. spec.take_name self.old ≡ Err self.new) }
    {
        let text = match &self.next {
            Next::Name(name) => name.text(),
            _ => return Err(ReadFault::Refused),
        };
        self.skip();
        Ok(text)
    }

    /// Takes a number.
    #[tactic(auto, unfolding(ftl_tokens::specs::reading::Reader::take_number, ftl_tokens::specs::reading::Reader::rest_of))]
    #[inline(always)]
    pub(crate) fn number(&mut self) -> Result<u64, ReadFault>
        ensures reads { Reads (spec.take_number self.old) result self.new }
        ensures small { IfOk result (λ n. n ≤ 140737488355327) }
    {
        let value = match &self.next {
            Next::Number(value) => *value,
            _ => return Err(ReadFault::Refused),
        };
        self.skip();
        Ok(value)
    }

    /// All tokens were taken.
    #[tactic(auto, unfolding(ftl_tokens::specs::reading::Reader::at_end))]
    #[inline(always)]
    pub(crate) fn end(&self) -> Result<(), ReadFault>
        ensures reads { Reads (spec.at_end self.now) result self.now }
    {
        match &self.next {
            Next::End => Ok(()),
            _ => Err(ReadFault::Refused),
        }
    }
}

/// How many tokens a text has, whose numbers are at most `greatest`.
fn plain_count(text: &str, greatest: u64) -> usize
    requires limit { greatest ≤ 140737488355327 }
    ensures count { result ≡ length (plain_tokens greatest text.now) }
    ensures few { result ≤ length text.now }
{
    let most = text.len();
    let mut input = TextInput::new(text, greatest);
    let mut count = 0;
    while count < most && input.peek().is_some() {
        input.skip();
        count += 1;
    }
    count
}
