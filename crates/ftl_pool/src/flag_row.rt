ghost use Rattle.std.specs.Prelude.{◌≡◌, ◌<◌, true, false, length, replicate, slice_set, IfOk};
ghost use Rattle.ftl_pool.specs.Flags.{Lowers};

use std::alloc::{AllocError, Global};
use std::marker::Model;

/// A row of flags, one for each item.
#[derive(Drop)]
pub struct FlagRow {
    flags: Vec<bool>,
    /// No flag before this one is up.
    from: usize,
}

impl Model for FlagRow {
    ghost use Rattle.std.specs.Prelude.{◌≤◌, ◌<◌, ◌^◌, Bool, List, length};
    ghost use Rattle.ftl_pool.specs.Flags.{AreDownBelow};

    ghost Value = { List Bool };

    ghost view = { λ r. r.flags.items };

    ghost invariant = { λ r. (length r.flags.items < 2 ^ 32) × (r.from ≤ length r.flags.items)
        × AreDownBelow r.flags.items r.from };
}

impl FlagRow {
    /// All flags are down.
    pub fn new(alloc: Global, items: u32) -> Result<FlagRow, AllocError>
        ensures none { IfOk result (λ r. r ≡ replicate items false) }
    {
        let flags = Vec::from_elem(alloc, false, items as usize)?;
        Ok(FlagRow { flags, from: 0 })
    }

    /// How many flags there are.
    pub fn items(&self) -> u32
        ensures count { result ≡ length self.now }
    {
        self.flags.len() as u32
    }

    /// Puts a flag up.
    pub fn raise(&mut self, item: u32)
        requires item { item < length self.old }
        ensures raised { self.new ≡ slice_set self.old item true }
    {
        let at = item as usize;
        self.flags[at] = true;
        if at < self.from {
            self.from = at;
        }
    }

    /// Puts the first flag that is up down, and answers its number.
    pub fn lower(&mut self) -> Option<u32>
        ensures lowers { Lowers self.old result self.new }
    {
        for at in self.from..self.flags.len() {
            if self.flags[at] {
                self.flags[at] = false;
                self.from = at;
                return Some(at as u32);
            }
        }
        self.from = self.flags.len();
        None
    }
}
