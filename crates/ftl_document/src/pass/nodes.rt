//! What stands at the front of a node: the name of its class, and its inputs.

ghost use Rattle.std.specs.Prelude.{◌≡◌, ◌<◌, ◌≤◌, [], ◌∷◌, length, get_or, IfOk, OnOk, IfSome};
ghost use Rattle.ftl_tokens.specs.scanner.Tokenized.{name, fixed};
ghost use Rattle.ftl_meaning.specs.faults.Numbering.{child_at, class_at, class_attributes};
ghost use Rattle.ftl_document.specs.faults.FirstFault.{input_names, needed_names};
ghost use Rattle.ftl_document.specs.pass.Good.{AreInputs, IsPlainName, before};
ghost use Rattle.ftl_document.specs.pass.Parts.{state_of};
ghost use Rattle.ftl_document.specs.pass.Steps.{IsClassAt, IsClassBefore, IsInputTaken, IsReady};

use crate::nodes::ClassTable;
use crate::pass::passed::Passed;
use crate::pass::tokens::{InputAt, past_gap, past_input, past_name};
use crate::plain::word_length;
use ftl_checked::Checked;
use ftl_tokens::{Kind, ReadFault};

/// Of a longer word, no more bytes are looked up, so that one that fills a page is gone over once.
const LONGEST_LOOKED_UP: usize = 4096;

/// What a pass goes by: the grammar, a table for each class, and the greatest number.
#[derive(Clone, Copy)]
pub(crate) struct Pass<'a> {
    pub(crate) checked: &'a Checked,
    pub(crate) tables: &'a [ClassTable],
    pub(crate) greatest: u64,
}

/// A class, and the bytes behind its name.
#[derive(Clone, Copy)]
struct ClassAt<'a> {
    class: u32,
    rest: &'a [u8],
}

impl<'g> Pass<'g> {
    /// What is left behind the name of this class, where it is one of the interface `wanted`.
    #[inline(always)]
    #[tactic(auto, using(crate::proofs::pass::Steps::class_stands))]
    fn past_class<'a>(&self, class: u32, wanted: u32, bytes: &'a [u8]) -> Option<ClassAt<'a>>
        requires ready { IsReady self.now }
        ensures class { IfSome result (IsClassAt self.now wanted bytes.now) }
    {
        if class >= self.checked.class_count() || self.checked.interface_of(class) != wanted {
            return None;
        }
        match past_name(bytes, self.checked.class_name(class).text().as_bytes()) {
            Some(rest) => Some(ClassAt { class, rest }),
            None => None,
        }
    }

    /// The class whose name seems to come next.
    #[inline(never)]
    fn likely_class(&self, bytes: &[u8]) -> Option<u32> {
        let word = past_gap(bytes);
        let word = &word[..word.len().min(LONGEST_LOOKED_UP)];
        match str::from_utf8(&word[..word_length(word)]) {
            Ok(name) => self.checked.find_class(name),
            Err(_) => None,
        }
    }

    /// The class of the interface `wanted` whose name stands at the front. That of the interface's
    /// last node is tried before the name is looked up.
    #[inline(always)]
    fn class_in<'a>(&self, wanted: u32, guess: u32, bytes: &'a [u8]) -> Option<ClassAt<'a>>
        requires ready { IsReady self.now }
        ensures class { IfSome result (IsClassAt self.now wanted bytes.now) }
    {
        match self.past_class(guess, wanted, bytes) {
            Some(found) => Some(found),
            None => match self.likely_class(bytes) {
                Some(class) => self.past_class(class, wanted, bytes),
                None => None,
            },
        }
    }

    /// The class that comes next. What stands before its name is gone over once.
    #[inline(always)]
    #[tactic(auto, using(crate::proofs::pass::Steps::class_behind))]
    fn class_at<'a>(&self, wanted: u32, guess: u32, bytes: &'a [u8]) -> Option<ClassAt<'a>>
        requires ready { IsReady self.now }
        ensures class { IfSome result (IsClassAt self.now wanted bytes.now) }
    {
        self.class_in(wanted, guess, past_gap(bytes))
    }

    /// Takes the name of a class of the interface `wanted`.
    #[inline(always)]
    pub(crate) fn class(&self, wanted: u32, passed: &mut Passed<'_>) -> Result<u32, ReadFault>
        requires ready { IsReady self.now }
        ensures class { IfOk result (λ k. IsClassBefore self.now.checked.now.grammar wanted k
            (state_of self.now.greatest passed.old) (state_of self.now.greatest passed.new)) }
    {
        let guess = passed.last_class(wanted);
        match self.class_at(wanted, guess, passed.rest) {
            Some(found) => {
                passed.rest = found.rest;
                passed.set_class(wanted, found.class);
                Ok(found.class)
            }
            None => Err(ReadFault::Refused),
        }
    }

    /// How many inputs a node of this class has.
    #[inline(always)]
    fn input_count(&self, class: u32) -> u32
        requires ready { IsReady self.now }
        requires known { class < length self.now.checked.now.grammar.classes }
        ensures count { result ≡ length (input_names self.now.checked.now.grammar class) }
    {
        self.tables[class as usize].fields.inputs
    }

    /// How many attributes it has.
    #[inline(always)]
    pub(crate) fn width(&self, class: u32) -> u32
        requires ready { IsReady self.now }
        requires known { class < length self.now.checked.now.grammar.classes }
        ensures width { result ≡ length (class_attributes self.now.checked.now.grammar class) }
        ensures few { result ≤ 128 }
    {
        self.tables[class as usize].width
    }

    /// The name of a field, among those of the inputs and then those of the children.
    #[inline(always)]
    fn field_name(&self, class: u32, place: usize) -> &'g [u8]
        requires ready { IsReady self.now }
        requires known { class < length self.now.checked.now.grammar.classes }
        requires place { place < length (needed_names self.now.checked.now.grammar class) }
        ensures plain { IsPlainName result.now }
        ensures name { result.now
            ≡ get_or (needed_names self.now.checked.now.grammar class) place [] }
    {
        let names = self.tables[class as usize].fields.names.names();
        names[place].text().as_bytes()
    }

    /// Takes the name of an input and `=`.
    #[inline(always)]
    #[tactic(auto, using(crate::proofs::pass::Fields::input_within, crate::proofs::pass::Fields::input_name))]
    fn input_name(&self, class: u32, input: u32, passed: &mut Passed<'_>) -> Result<(), ReadFault>
        requires ready { IsReady self.now }
        requires known { class < length self.now.checked.now.grammar.classes }
        requires input { input < length (input_names self.now.checked.now.grammar class) }
        ensures field { OnOk result (state_of self.now.greatest passed.old
            ≡ before (name (get_or (input_names self.now.checked.now.grammar class) input [])
            ∷ fixed Kind.Equals ∷ []) (state_of self.now.greatest passed.new)) }
    {
        passed.field(self.field_name(class, input as usize))
    }

    /// Takes the name of a child and `=`.
    #[inline(always)]
    #[tactic(auto, using(crate::proofs::pass::Fields::child_within, crate::proofs::pass::Fields::child_name))]
    pub(crate) fn child_name(
        &self,
        class: u32,
        child: u32,
        passed: &mut Passed<'_>,
    ) -> Result<(), ReadFault>
        requires ready { IsReady self.now }
        requires known { class < length self.now.checked.now.grammar.classes }
        requires child { child < length (class_at self.now.checked.now.grammar class).children }
        ensures field { OnOk result (state_of self.now.greatest passed.old
            ≡ before (name (child_at self.now.checked.now.grammar class child).name
            ∷ fixed Kind.Equals ∷ []) (state_of self.now.greatest passed.new)) }
    {
        let place = self.input_count(class) as usize + child as usize;
        passed.field(self.field_name(class, place))
    }

    /// Takes the inputs of a node of this class.
    #[inline(always)]
    pub(crate) fn inputs(&self, class: u32, passed: &mut Passed<'_>) -> Result<(), ReadFault>
        requires ready { IsReady self.now }
        requires known { class < length self.now.checked.now.grammar.classes }
        ensures inputs { OnOk result (AreInputs self.now.greatest
            (input_names self.now.checked.now.grammar class)
            (state_of self.now.greatest passed.old) (state_of self.now.greatest passed.new)) }
    {
        let count = self.input_count(class);
        let mut input = 0;
        while input < count {
            self.input_name(class, input, passed)?;
            self.input(passed)?;
            input += 1;
        }
        Ok(())
    }

    /// Takes the number of an input.
    #[inline(always)]
    fn input(&self, passed: &mut Passed<'_>) -> Result<(), ReadFault>
        requires ready { IsReady self.now }
        ensures input { OnOk result (IsInputTaken self.now.greatest
            (state_of self.now.greatest passed.old) (state_of self.now.greatest passed.new)) }
    {
        match past_input(passed.rest, self.greatest) {
            Some(InputAt { value, rest }) => {
                passed.rest = rest;
                passed.inputs.push(value)?;
                Ok(())
            }
            None => Err(ReadFault::Refused),
        }
    }
}
