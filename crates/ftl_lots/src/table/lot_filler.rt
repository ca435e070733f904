//! The part of a lot, filled.
use crate::filling::{ItemBlocks, RunItems, Span, fill_phase};
use crate::table::fill_lots::FillLots;
use ftl_base::{CodeStack, Val};
use ftl_cells::{Phase, Phases};
use std::marker::Model;

/// Fills the parts of lots, which have the words after the first phase.
#[derive(Drop)]
pub(crate) struct LotFiller<'a, W: RunItems> {
    pub(crate) work: &'a W,
    pub(crate) phases: &'a Phases,
    pub(crate) spans: &'a [Span],
    pub(crate) blocks: ItemBlocks<'a>,
}

impl<'a, W: RunItems> Model for LotFiller<'a, W> {
    ghost use Rattle.ftl_lots.specs.table.Lots.{CanFillLots, Wanted, wanted};

    ghost Value = { Wanted };

    ghost view = { λ f. wanted (W.meaning f.work.now) f.phases.now };

    ghost invariant = { λ f. CanFillLots (W.meaning f.work.now) f.phases.now f.spans.now
        f.blocks };
}

impl<'a, W: RunItems> FillLots for LotFiller<'a, W> {
    ghost wanted = { λ f. f };

    fn lot_count(&self) -> u32 {
        self.phases.ranges
    }

    fn max_reads(&self) -> u32 {
        self.work.most_reads()
    }

    fn max_stack(&self) -> u32 {
        self.work.most_stack()
    }

    /// The items of the lot's phase.
    fn fill_part(
        &self,
        lot: u32,
        part: &mut Vec<u64>,
        reads: &mut Vec<Val>,
        stack: &mut CodeStack,
    ) {
        let first = lot
            .saturating_mul(self.phases.size)
            .min(self.work.cell_count());
        fill_phase(
            self.work,
            self.phases,
            Phase::Range(lot),
            self.spans[lot as usize],
            self.blocks,
            first,
            part,
            reads,
            stack,
        );
    }
}
