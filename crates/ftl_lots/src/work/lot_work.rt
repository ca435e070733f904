//! Lots as items.
ghost use Rattle.std.specs.Prelude.{◌≡◌};

use crate::table::{FillLots, Lots};
use ftl_base::{CodeStack, Val};
use ftl_cells::{CellKind, Filler, Meant, Work};
use std::marker::Model;

/// The lots of a table, each as an item. There are no cells, and no item has steps: the words of a
/// lot lie in its slot.
#[derive(Drop)]
pub(crate) struct LotWork<'a, F: FillLots> {
    pub(crate) lots: &'a Lots<F>,
    pub(crate) filler: &'a F,
}

impl<'a, F: FillLots> Model for LotWork<'a, F> {
    ghost use Rattle.std.specs.Prelude.{◌≡◌};
    ghost use Rattle.ftl_lots.specs.table.Lots.{Wanted};

    ghost Value = { Wanted };

    ghost view = { λ w. F.wanted w.filler.now };

    ghost invariant = { λ w. F.wanted w.filler.now ≡ w.lots.now.1 };
}

impl<'a, F: FillLots> Meant for LotWork<'a, F> {
    ghost use Rattle.ftl_cells.specs.shared.Shape.{listed};
    ghost use Rattle.ftl_lots.specs.work.Loose.{loose};

    ghost meaning = { λ w. listed (loose w) };
}

#[tactic(auto, using(crate::proofs::work::LooseLaws::loose_facts))]
impl<'a, F: FillLots + Sync> Work for LotWork<'a, F> {
    fn items(&self) -> u32 {
        self.filler.lot_count()
    }

    fn cells(&self) -> u32 {
        0
    }

    fn cell_kind(&self, _cell: u32) -> CellKind {
        CellKind::Later
    }

    fn pred_count(&self, _item: u32) -> u32 {
        0
    }

    fn next_count(&self, _item: u32) -> u32 {
        0
    }

    fn next(&self, _item: u32, _k: u32) -> u32 {
        unreachable!()
    }

    fn step_count(&self, _item: u32) -> u32 {
        0
    }

    fn target(&self, _item: u32, _step: u32) -> u32 {
        unreachable!()
    }

    fn read_count(&self, _item: u32, _step: u32) -> u32 {
        unreachable!()
    }

    fn read(&self, _item: u32, _step: u32, _k: u32) -> u32 {
        unreachable!()
    }

    fn max_reads(&self) -> u32 {
        self.filler.max_reads()
    }

    fn max_stack(&self) -> u32 {
        self.filler.max_stack()
    }

    fn result(&self, _item: u32, _step: u32, _reads: &[Val], _stack: &mut CodeStack) -> Val {
        unreachable!()
    }

    /// The lot is filled in its slot, and the filler stays as it is.
    fn run_item<G: Filler>(
        &self,
        item: u32,
        _filler: &mut G,
        reads: &mut Vec<Val>,
        stack: &mut CodeStack,
    ) {
        self.lots.fill(self.filler, item, reads, stack);
    }
}
