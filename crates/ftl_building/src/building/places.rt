//! The places of what is open.

ghost use Rattle.std.specs.Prelude.{◌≡◌, ◌++◌, ◌∷◌, [], take, IsNone, OnErr, OnOk};
ghost use Rattle.std.specs.Option.{option_to_list};

use std::alloc::{AllocError, Global};
use std::marker::Model;

/// Places of rows in one another. Contracts see them from the innermost one on.
#[derive(Drop)]
pub struct Places {
    outermost_first: Vec<usize>,
}

impl Model for Places {
    ghost use Rattle.std.specs.Prelude.{ℕ, List, reverse};

    ghost Value = { List ℕ };

    ghost view = { λ p. reverse p.outermost_first.items };
}

impl Places {
    pub(crate) fn new(alloc: Global) -> Places
        ensures empty { result ≡ [] }
    {
        Places {
            outermost_first: Vec::new(alloc),
        }
    }

    pub(crate) fn push(&mut self, at: usize) -> Result<(), AllocError>
        ensures pushed { OnOk result (self.new ≡ at ∷ self.old) }
        ensures unchanged { OnErr result (self.new ≡ self.old) }
    {
        self.outermost_first.push(at)?;
        Ok(())
    }

    /// Takes the innermost one.
    pub(crate) fn pop(&mut self) -> Option<usize>
        ensures popped { self.old ≡ option_to_list result ++ self.new }
        ensures ended { IsNone result → self.old ≡ [] }
    {
        self.outermost_first.pop()
    }

    /// The innermost one.
    pub(crate) fn innermost(&self) -> Option<usize>
        ensures first { option_to_list result ≡ take 1 self.now }
    {
        self.outermost_first.last().copied()
    }
}
