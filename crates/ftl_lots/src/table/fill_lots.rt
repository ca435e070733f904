ghost use Rattle.std.specs.Prelude.{◌≡◌, ◌<◌, ◌≤◌, vec_capacity};
ghost use Rattle.ftl_lots.specs.table.Lots.{IsBegun, IsFilled, Wanted, lot_total};

use ftl_base::{CodeStack, Val};

/// Fills the parts of lots.
pub(crate) trait FillLots {
    /// What they are lots of.
    ghost wanted: { Self → Wanted };

    fn lot_count(&self) -> u32
        ensures count { result ≡ lot_total (Self.wanted self.now) };

    /// No step reads more.
    fn max_reads(&self) -> u32
        ensures bound { result ≡ (Self.wanted self.now).of.max_reads };

    /// No step needs a stack with more room.
    fn max_stack(&self) -> u32
        ensures bound { result ≡ (Self.wanted self.now).of.max_stack };

    /// Fills the part of a lot.
    fn fill_part(&self, lot: u32, part: &mut Vec<u64>, reads: &mut Vec<Val>, stack: &mut CodeStack)
        requires lot { lot < lot_total (Self.wanted self.now) }
        requires begun { IsBegun (Self.wanted self.now) lot part.old }
        requires reads { (Self.wanted self.now).of.max_reads ≤ vec_capacity reads.old }
        requires room { (Self.wanted self.now).of.max_stack ≤ stack.old.room }
        ensures filled { IsFilled (Self.wanted self.now) lot part.new }
        ensures reads { vec_capacity reads.old ≤ vec_capacity reads.new }
        ensures room { stack.new.room ≡ stack.old.room };
}
