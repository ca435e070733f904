//! What is asked of rules.
ghost use Rattle.std.specs.Prelude.{◌≡◌, ◌<◌, ◌≤◌, ◌⊎◌, ◌+◌, ℕ, Contains, length, IfOk, OnOk};
ghost use Rattle.ftl_relayout.specs.queue.Nets.{IsKeyOf, IsLawfulNet, IsReaderBy, IsStep, Net};
ghost use Rattle.ftl_relayout.specs.queue.Nets.{table};
ghost use Rattle.ftl_visit.specs.compiled.RuleCode.{Compiled};

use crate::queue::waiting::Waiting;
use ftl_base::Val;
use std::alloc::AllocError;

/// Rules that compute cells from one another by some code, with a count of what they have cost.
pub trait Rules {
    ghost net: { Self → Net };

    ghost spent: { Self → ℕ };

    ghost code: { Self → Compiled };

    /// The cell of a key.
    fn cell(&self, key: u128) -> u32
        requires key { IsKeyOf (net self.now) key }
        ensures step { IsStep (net self.now) result }
        ensures key { (net self.now).key result ≡ key }
        ensures lawful { IsLawfulNet (net self.now) };

    /// What the rule of a cell gives.
    fn compute(&mut self, cell: u32, key: u128, values: &[Val]) -> Val
        requires step { IsStep (net self.old) cell }
        requires key { (net self.old).key cell ≡ key }
        requires count { length values.now ≡ (net self.old).cells }
        ensures value { result ≡ (net self.old).value (table values.now) cell }
        ensures stays { net self.new ≡ net self.old }
        ensures code { code self.new ≡ code self.old }
        ensures grows { spent self.old ≤ spent self.new }
        ensures spent { spent self.new ≤ spent self.old + (net self.old).cost cell };

    /// Lets all wait that read a cell.
    fn add_readers(&self, cell: u32, key: u128, waiting: &mut Waiting) -> Result<(), AllocError>
        requires cell { cell < (net self.now).cells }
        requires key { (net self.now).key cell ≡ key }
        ensures kept { (k : ℕ) → Contains waiting.old.keys k → Contains waiting.new.keys k }
        ensures readers { OnOk result ((k : ℕ) → IsReaderBy (net self.now) cell k
            → Contains waiting.new.keys k) }
        ensures no_others { (k : ℕ) → Contains waiting.new.keys k
            → Contains waiting.old.keys k ⊎ IsReaderBy (net self.now) cell k };
}
