//! What rules define, and a set of it.
ghost use Rattle.std.specs.Prelude.{◌≡◌, ◌++◌, [], ◌∷◌, OnOk, false};
ghost use Rattle.std.specs.List.{list_any};
ghost use Rattle.ftl_meaning.specs.faults.FirstFault.{same_slot};
ghost use Rattle.ftl_checked.specs.grammars.Slots.{slot_in};

use indexmap::IndexSet;
use std::alloc::{AllocError, Global};
use std::marker::Model;

/// What a rule defines, by number: an attribute of the node itself, or one of the kids in a child.
#[derive(Clone, Copy, Debug, PartialEq, Eq, Hash)]
pub enum RuleSlot {
    Own(u32),
    Kid(u32, u32),
}

/// The slots that have a rule, in the order of their rules, each found in one look-up.
#[derive(Drop)]
pub struct Ruled {
    slots: IndexSet<RuleSlot>,
}

impl Model for Ruled {
    ghost use Rattle.std.specs.Prelude.{List, map};
    ghost use Rattle.ftl_meaning.specs.faults.RuleForms.{Slot};
    ghost use Rattle.ftl_checked.specs.grammars.Slots.{slot_in};

    ghost Value = { List Slot };

    ghost view = { λ r. map slot_in r.slots.keys };
}

impl Ruled {
    pub(crate) fn new(alloc: Global) -> Ruled
        ensures empty { result ≡ [] }
    {
        Ruled {
            slots: IndexSet::new(alloc),
        }
    }

    pub(crate) fn has(&self, slot: RuleSlot) -> bool
        ensures has { result ≡ list_any (same_slot (slot_in slot)) self.now }
    {
        self.slots.contains(&slot)
    }

    pub(crate) fn add(&mut self, slot: RuleSlot) -> Result<(), AllocError>
        requires new { list_any (same_slot (slot_in slot)) self.old ≡ false }
        ensures added { OnOk result (self.new ≡ self.old ++ slot_in slot ∷ []) }
    {
        self.slots.insert(slot)?;
        Ok(())
    }
}
