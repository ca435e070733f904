ghost use Rattle.std.specs.Prelude.{◌≡◌, ℕ, ◌+◌, ◌<◌, [], ◌∷◌, ◌++◌, length, IfOk};
ghost use Rattle.ftl_model.specs.layout.Values.{Value};
ghost use Rattle.ftl_base.specs.Stacked.{EndsInValue, EndsInTruth};

use crate::engine::Engine;
use crate::truth::Truth;
use crate::val::Val;
use std::alloc::{AllocError, Global};
use std::marker::Model;

/// An entry of a stack that code runs on.
#[derive(Clone, Copy, Debug, PartialEq, Eq)]
pub enum Entry {
    Number(Val),
    Test(Truth),
}

/// A stack of values and truths. It takes all its memory when it is made: a row of values, a row of
/// truths, and a row that marks the places whose entry is a truth.
#[derive(Drop)]
pub struct CodeStack {
    depth: u32,
    height: u32,
    values: Vec<Val>,
    truths: Vec<Truth>,
    marks: Vec<bool>,
}

impl Model for CodeStack {
    ghost use Rattle.ftl_base.specs.StackRows.{stacked_of, AreStackRows};
    ghost use Rattle.ftl_base.specs.Stacked.{Stacked};

    ghost Value = { Stacked };

    ghost view = { stacked_of };

    ghost invariant = { AreStackRows };
}

impl CodeStack {
    /// An empty stack with room for `depth` entries.
    pub fn new(alloc: Global, depth: u32) -> Result<CodeStack, AllocError>
        ensures room { IfOk result (λ s. s.room ≡ depth) }
        ensures empty { IfOk result (λ s. s.entries ≡ []) }
    {
        Ok(CodeStack {
            depth,
            height: 0,
            values: Vec::from_elem(alloc, Val::overflow(), depth as usize)?,
            truths: Vec::from_elem(alloc, Truth::Overflow, depth as usize)?,
            marks: Vec::from_elem(alloc, false, depth as usize)?,
        })
    }

    /// For how many entries there is room.
    pub fn room(&self) -> u32
        ensures room { result ≡ self.now.room }
    {
        self.depth
    }

    /// Takes off all entries.
    pub fn clear(&mut self)
        ensures empty { self.new.entries ≡ [] }
        ensures room { self.new.room ≡ self.old.room }
    {
        self.height = 0;
    }

    /// Adds a value at the end.
    pub fn push_val(&mut self, v: Val)
        requires has_room { length self.old.entries < self.old.room }
        ensures entries { self.new.entries ≡ self.old.entries ++ Entry.Number v ∷ [] }
        ensures room { self.new.room ≡ self.old.room }
    {
        let place = self.height as usize;
        self.values[place] = v;
        self.marks[place] = false;
        self.height += 1;
    }

    /// Adds a truth at the end.
    pub fn push_truth(&mut self, t: Truth)
        requires has_room { length self.old.entries < self.old.room }
        ensures entries { self.new.entries ≡ self.old.entries ++ Entry.Test t ∷ [] }
        ensures room { self.new.room ≡ self.old.room }
    {
        let place = self.height as usize;
        self.truths[place] = t;
        self.marks[place] = true;
        self.height += 1;
    }

    /// Takes off the last entry, a value.
    pub fn pop_val(&mut self) -> Val
        requires last { EndsInValue self.old.entries }
        ensures entries { self.old.entries ≡ self.new.entries ++ Entry.Number result ∷ [] }
        ensures room { self.new.room ≡ self.old.room }
    {
        self.height -= 1;
        self.values[self.height as usize]
    }

    /// Takes off the last entry, a truth.
    pub fn pop_truth(&mut self) -> Truth
        requires last { EndsInTruth self.old.entries }
        ensures entries { self.old.entries ≡ self.new.entries ++ Entry.Test result ∷ [] }
        ensures room { self.new.room ≡ self.old.room }
    {
        self.height -= 1;
        self.truths[self.height as usize]
    }

    /// Lends both rows to an engine, each as long as the room, and is empty afterwards.
    pub fn lend<E: Engine>(&mut self, engine: E) -> Val
        requires room { E.may_run engine self.old.room }
        ensures gives { E.may_give engine result }
        ensures empty { self.new.entries ≡ [] }
        ensures room { self.new.room ≡ self.old.room }
    {
        let answer = engine.run(&mut self.values, &mut self.truths);
        self.height = 0;
        answer
    }
}
