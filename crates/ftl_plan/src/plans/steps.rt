//! The steps of a stage.
ghost use Rattle.std.specs.Prelude.{◌≡◌, ◌<◌, ◌≤◌, length, map};
ghost use Rattle.ftl_cells.specs.shared.Work.{IsStepOfItem, read_of, read_total, solution_at};
ghost use Rattle.ftl_cells.specs.shared.Work.{solved_reads, target_of};
ghost use Rattle.ftl_step_value.specs.cells.ReadCells.{filled_cell, read_cells};
ghost use Rattle.ftl_order.specs.steps.Steps.{IsStepOf};
ghost use Rattle.ftl_plan.specs.plans.StageParts.{IsStage, grammar_of, meaning_of, tree_of};

use crate::laws::solution_of_plans;
use crate::plans::parts::StageParts;
use ftl_base::{CodeStack, Val};
use ftl_order::Step;
use ftl_step_value::{read_at, read_count, step_value, target_cell};

impl<'a> StageParts<'a> {
    pub(crate) fn target(&self, item: u32, step: u32) -> u32
        requires fit { IsStage self.now }
        requires step { IsStepOfItem (meaning_of self.now) item step }
        ensures target { result ≡ target_of (meaning_of self.now) item step }
    {
        target_cell(self.tree(), self.step(item, step))
    }

    pub(crate) fn read_count(&self, item: u32, step: u32) -> u32
        requires fit { IsStage self.now }
        requires step { IsStepOfItem (meaning_of self.now) item step }
        ensures count { result ≡ read_total (meaning_of self.now) item step }
    {
        read_count(self.read_tables, self.tree(), self.step(item, step))
    }

    pub(crate) fn read(&self, item: u32, step: u32, k: u32) -> u32
        requires fit { IsStage self.now }
        requires step { IsStepOfItem (meaning_of self.now) item step }
        requires place { k < read_total (meaning_of self.now) item step }
        ensures cell { result ≡ read_of (meaning_of self.now) item step k }
    {
        read_at(self.read_tables, self.tree(), self.step(item, step), k)
    }

    pub(crate) fn result(&self, item: u32, step: u32, reads: &[Val], stack: &mut CodeStack) -> Val
        requires fit { IsStage self.now }
        requires step { IsStepOfItem (meaning_of self.now) item step }
        requires reads { length reads.now ≡ read_total (meaning_of self.now) item step }
        requires room { self.now.programs.now.max_stack ≤ stack.old.room }
        ensures value { reads.now ≡ solved_reads (meaning_of self.now) item step
            → result ≡ solution_at (meaning_of self.now)
            (target_of (meaning_of self.now) item step) }
        ensures room { stack.new.room ≡ stack.old.room }
    {
        self.value(self.step(item, step), reads, stack)
    }

    /// The value that a step gives, from those of the cells that it reads.
    #[inline(always)]
    pub(crate) fn value(&self, step: Step, reads: &[Val], stack: &mut CodeStack) -> Val
        requires fit { IsStage self.now }
        requires step { IsStepOf (grammar_of self.now) (tree_of self.now) step }
        requires reads { length reads.now
            ≡ length (read_cells (grammar_of self.now) (tree_of self.now) step) }
        requires room { self.now.programs.now.max_stack ≤ stack.old.room }
        ensures value { reads.now ≡ map (solution_at (meaning_of self.now))
            (read_cells (grammar_of self.now) (tree_of self.now) step)
            → result ≡ solution_at (meaning_of self.now)
            (filled_cell (grammar_of self.now) (tree_of self.now) step) }
        ensures room { stack.new.room ≡ stack.old.room }
    {
        solution_of_plans();
        step_value(
            self.programs,
            self.read_tables,
            self.tree(),
            step,
            reads,
            stack,
        )
    }
}
