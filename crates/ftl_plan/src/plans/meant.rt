//! What the work of a stage means, and its answers.
use crate::plans::work::StageWork;
use ftl_base::{CodeStack, Val};
use ftl_cells::{CellKind, Filler, Meant, Work};

// No step of a tree that has a plan reads more cells.
const MAX_READS: u32 = 1048576;

impl<'a> Meant for StageWork<'a> {
    ghost use Rattle.ftl_plan.specs.plans.StageParts.{meaning_at};

    ghost meaning = { meaning_at };
}

impl<'a> Work for StageWork<'a> {
    fn items(&self) -> u32 {
        self.parts.items()
    }

    fn cells(&self) -> u32 {
        self.parts.cells()
    }

    fn cell_kind(&self, cell: u32) -> CellKind {
        self.parts.kind(cell)
    }

    fn pred_count(&self, item: u32) -> u32 {
        self.parts.pred_count(item)
    }

    fn next_count(&self, item: u32) -> u32 {
        self.parts.next_count(item)
    }

    fn next(&self, item: u32, k: u32) -> u32 {
        self.parts.next(item, k)
    }

    fn step_count(&self, item: u32) -> u32 {
        self.parts.step_count(item)
    }

    fn target(&self, item: u32, step: u32) -> u32 {
        self.parts.target(item, step)
    }

    fn read_count(&self, item: u32, step: u32) -> u32 {
        self.parts.read_count(item, step)
    }

    fn read(&self, item: u32, step: u32, k: u32) -> u32 {
        self.parts.read(item, step, k)
    }

    fn max_reads(&self) -> u32 {
        MAX_READS
    }

    fn max_stack(&self) -> u32 {
        self.parts.programs.max_stack()
    }

    fn result(&self, item: u32, step: u32, reads: &[Val], stack: &mut CodeStack) -> Val {
        self.parts.result(item, step, reads, stack)
    }

    fn run_item<F: Filler>(
        &self,
        item: u32,
        filler: &mut F,
        reads: &mut Vec<Val>,
        stack: &mut CodeStack,
    ) {
        self.parts.run_item(item, filler, reads, stack);
    }
}
