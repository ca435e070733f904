//! The regions of rows in which a walk stands.

ghost use Rattle.std.specs.Prelude.{◌≡◌, ◌++◌, ◌∷◌, ◌<◌, [], suc, drop, IsNone, OnOk};
ghost use Rattle.std.specs.Option.{option_to_list};

use std::alloc::{AllocError, Global};
use std::marker::Model;

/// The rows up to `end`: those of the fields of the node `node`, which is of class `class`, or of
/// the nodes in its list child `child`, `kid` of which have come.
#[derive(Clone, Copy, Debug, PartialEq, Eq)]
pub(crate) struct Region {
    pub(crate) end: usize,
    pub(crate) class: u32,
    pub(crate) node: u32,
    pub(crate) child: u32,
    pub(crate) kid: u32,
}

impl Region {
    /// The same once one more kid has come.
    pub(crate) fn with_next_kid(self) -> Region
        requires few { self.kid < 4294967295 }
        ensures next { result ≡ record self { kid = suc self.kid } }
    {
        Region {
            end: self.end,
            class: self.class,
            node: self.node,
            child: self.child,
            kid: self.kid + 1,
        }
    }
}

/// Regions in one another. Contracts see them from the innermost one on.
#[derive(Drop)]
pub(crate) struct Stack {
    regions: Vec<Region>,
}

impl Model for Stack {
    ghost use Rattle.std.specs.Prelude.{List, reverse};
    ghost use Rattle.ftl_document.specs.declared.nodes.stack.Region.{Region};

    ghost Value = { List Region };

    ghost view = { λ s. reverse s.regions.items };
}

impl Stack {
    pub(crate) fn new(alloc: Global) -> Stack
        ensures empty { result ≡ [] }
    {
        Stack {
            regions: Vec::new(alloc),
        }
    }

    pub(crate) fn push(&mut self, region: Region) -> Result<(), AllocError>
        ensures pushed { OnOk result (self.new ≡ region ∷ self.old) }
    {
        self.regions.push(region)?;
        Ok(())
    }

    /// The innermost region.
    pub(crate) fn innermost(&self) -> Option<Region>
        ensures innermost { self.now ≡ option_to_list result ++ drop 1 self.now }
        ensures ended { IsNone result → self.now ≡ [] }
    {
        self.regions.last().copied()
    }

    /// Takes the innermost region.
    pub(crate) fn pop(&mut self) -> Option<Region>
        ensures popped { self.old ≡ option_to_list result ++ self.new }
        ensures ended { IsNone result → self.old ≡ [] }
    {
        self.regions.pop()
    }

    /// Puts a region in the place of the innermost one.
    pub(crate) fn replace(&mut self, region: Region) -> Result<(), AllocError>
        ensures replaced { OnOk result (self.new ≡ region ∷ drop 1 self.old) }
    {
        self.pop();
        self.push(region)
    }
}
