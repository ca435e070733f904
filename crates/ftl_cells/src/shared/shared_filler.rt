// A hand on shared cells, as the filler of an item that it claimed.
ghost use Rattle.std.specs.Prelude.{◌≡◌, ◌≤◌, vec_capacity};
ghost use Rattle.ftl_cells.specs.shared.Calls.{IsMadeBy};
ghost use Rattle.ftl_cells.specs.shared.Filling.{Fills, CanStart, IsDoneFrom};

use crate::shared::cells::Cells;
use crate::shared::filler::Filler;
use crate::shared::hand::Hand;
use crate::shared::place::HandPlace;
use crate::shared::work::{Meant, Work};
use ftl_base::{CodeStack, Val};

/// Makes the reads and the fills of a hand: each is one step on the shared cells.
#[derive(Drop)]
pub struct SharedFiller<'a, W: Meant> {
    cells: &'a Cells<W>,
    hand: &'a mut Hand,
}

impl<'a, W: Meant> SharedFiller<'a, W> {
    /// Of a hand that these cells made.
    pub fn new(cells: &'a Cells<W>, hand: &'a mut Hand) -> SharedFiller<'a, W>
        ensures cells { result.cells.now ≡ cells.now }
        ensures same_hand { result.hand.ghost_name ≡ hand.entry.ghost_name }
        ensures hand { result.hand.now ≡ hand.old }
    {
        SharedFiller { cells, hand }
    }
}

impl<'a, W: Meant> Filler for SharedFiller<'a, W> {
    ghost use Rattle.std.specs.Prelude.{◌≡◌, refl};
    ghost use Rattle.std.proofs.Common.{◌∙◌};
    ghost use Rattle.ftl_cells.specs.shared.Calls.{IsMadeBy};
    ghost use Rattle.ftl_cells.specs.shared.Filling.{Fills, stays, fills_further};

    ghost of = { λ f. W.meaning f.cells.now.1 };

    ghost place = { λ f. f.hand.now.state.place };

    ghost fit = { λ f. IsMadeBy (W.meaning f.cells.now.1) f.cells.now.0 f.hand.now };

    ghost keeps = { λ f g. (g.hand.ghost_name ≡ f.hand.ghost_name) × (g.cells.now ≡ f.cells.now)
        × Fills f.hand.now.state g.hand.now.state };

    ghost keeps_self = { λ f. (refl, refl, stays) };

    ghost keeps_on = { λ f g h a b. (b.0 ∙ a.0, b.1 ∙ a.1, fills_further a.2 b.2) };

    fn read(&mut self, cell: u32) -> Val {
        self.cells.read_at(self.hand, cell)
    }

    fn fill(&mut self, cell: u32, val: Val) {
        self.cells.fill_at(self.hand, cell, val);
    }
}

impl<W: Work> Cells<W> {
    #[tactic(auto, using(crate::proofs::shared::Driven::fills_release_none))]
    /// Fills all steps of the item that the hand claimed, as the work goes through them.
    pub fn fill_item(&self, hand: &mut Hand, reads: &mut Vec<Val>, stack: &mut CodeStack)
        requires made { IsMadeBy (W.meaning self.now.1) self.now.0 hand.old }
        requires claimed { CanStart hand.old.state.place }
        requires reads { (W.meaning self.now.1).max_reads ≤ vec_capacity reads.old }
        requires room { (W.meaning self.now.1).max_stack ≤ stack.old.room }
        ensures made { IsMadeBy (W.meaning self.now.1) self.now.0 hand.new }
        ensures steps { Fills hand.old.state hand.new.state }
        ensures filled { IsDoneFrom (W.meaning self.now.1) hand.old.state.place
            hand.new.state.place }
        ensures released { hand.new.state.released ≡ hand.old.state.released }
        ensures reads { vec_capacity reads.old ≤ vec_capacity reads.new }
        ensures room { stack.new.room ≡ stack.old.room }
    {
        let HandPlace::Working { item, .. } = hand.place() else {
            unreachable!()
        };
        let mut filler = SharedFiller::new(self, hand);
        self.work.run_item(item, &mut filler, reads, stack);
    }
}
