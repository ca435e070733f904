ghost use Rattle.std.specs.Prelude.{◌≡◌, ◌<◌, ◌≤◌, length, vec_capacity};
ghost use Rattle.ftl_cells.specs.shared.Work.{Meaning, IsLawfulWork, IsStepOfItem, cell_total};
ghost use Rattle.ftl_cells.specs.shared.Work.{kind_at};
ghost use Rattle.ftl_cells.specs.shared.Work.{item_total};
ghost use Rattle.ftl_cells.specs.shared.Work.{pred_total, next_total, next_at, step_total};
ghost use Rattle.ftl_cells.specs.shared.Work.{target_of};
ghost use Rattle.ftl_cells.specs.shared.Work.{read_total, read_of, solved_reads, solution_at};
ghost use Rattle.ftl_cells.specs.shared.State.{live};
ghost use Rattle.ftl_cells.specs.declared.shared.place.HandPlace.TheVariants.{Working};

use crate::shared::filler::Filler;
use crate::shared::kind::CellKind;
use ftl_base::{CodeStack, Val};

/// What contracts see of a work.
pub trait Meant {
    /// The cells, the items and the solution, which is what `result` answers when it is fed with
    /// the solution.
    ghost meaning: { Self → Meaning };
}

/// What there is to do: cells, and items with steps that each read cells and fill one.
pub trait Work: Meant + Sync {
    fn items(&self) -> u32
        ensures count { result ≡ item_total (Self.meaning self.now) }

        // Each work is lawful.
        ensures lawful { IsLawfulWork (Self.meaning self.now) };

    fn cells(&self) -> u32
        ensures count { result ≡ cell_total (Self.meaning self.now) };

    fn cell_kind(&self, cell: u32) -> CellKind
        requires cell { cell < cell_total (Self.meaning self.now) }
        ensures kind { result ≡ kind_at (Self.meaning self.now) cell };

    /// How many items have this one in their `next` list.
    fn pred_count(&self, item: u32) -> u32
        requires item { item < item_total (Self.meaning self.now) }
        ensures count { result ≡ pred_total (Self.meaning self.now) item };

    fn next_count(&self, item: u32) -> u32
        requires item { item < item_total (Self.meaning self.now) }
        ensures count { result ≡ next_total (Self.meaning self.now) item };

    /// The items that wait for this one, by place.
    fn next(&self, item: u32, k: u32) -> u32
        requires item { item < item_total (Self.meaning self.now) }
        requires place { k < next_total (Self.meaning self.now) item }
        ensures next { result ≡ next_at (Self.meaning self.now) item k };

    fn step_count(&self, item: u32) -> u32
        requires item { item < item_total (Self.meaning self.now) }
        ensures count { result ≡ step_total (Self.meaning self.now) item };

    /// The cell that a step fills.
    fn target(&self, item: u32, step: u32) -> u32
        requires step { IsStepOfItem (Self.meaning self.now) item step }
        ensures target { result ≡ target_of (Self.meaning self.now) item step };

    fn read_count(&self, item: u32, step: u32) -> u32
        requires step { IsStepOfItem (Self.meaning self.now) item step }
        ensures count { result ≡ read_total (Self.meaning self.now) item step };

    /// The cells that a step reads, by place.
    fn read(&self, item: u32, step: u32, k: u32) -> u32
        requires step { IsStepOfItem (Self.meaning self.now) item step }
        requires place { k < read_total (Self.meaning self.now) item step }
        ensures cell { result ≡ read_of (Self.meaning self.now) item step k };

    /// No step reads more.
    fn max_reads(&self) -> u32
        ensures bound { result ≡ (Self.meaning self.now).max_reads };

    /// No step needs a stack with more room.
    fn max_stack(&self) -> u32
        ensures bound { result ≡ (Self.meaning self.now).max_stack };

    /// The value that a step gives its target, from what it read.
    fn result(&self, item: u32, step: u32, reads: &[Val], stack: &mut CodeStack) -> Val
        requires step { IsStepOfItem (Self.meaning self.now) item step }
        requires reads { length reads.now ≡ read_total (Self.meaning self.now) item step }
        requires room { (Self.meaning self.now).max_stack ≤ stack.old.room }

        // From the solution's values comes the solution's value.
        ensures value { reads.now ≡ solved_reads (Self.meaning self.now) item step
            → result
            ≡ solution_at (Self.meaning self.now) (target_of (Self.meaning self.now) item step) }
        ensures room { stack.new.room ≡ stack.old.room };

    /// Drives a filler through an item: it goes through the steps in order, has the cells of each
    /// read in order, and then its target filled with the solution's value.
    fn run_item<F: Filler>(
        &self,
        item: u32,
        filler: &mut F,
        reads: &mut Vec<Val>,
        stack: &mut CodeStack,
    )
        requires item { item < item_total (Self.meaning self.now) }
        requires fit { F.fit filler.old }
        requires of { F.of filler.old ≡ Self.meaning self.now }
        requires working { F.place filler.old ≡ live (Working item 0 0) }
        requires reads { (Self.meaning self.now).max_reads ≤ vec_capacity reads.old }
        requires room { (Self.meaning self.now).max_stack ≤ stack.old.room }
        ensures fit { F.fit filler.new }
        ensures of { F.of filler.new ≡ F.of filler.old }
        ensures filled { F.place filler.new
            ≡ live (Working item (step_total (Self.meaning self.now) item) 0) }
        ensures keeps { F.keeps filler.old filler.new }
        ensures reads { vec_capacity reads.old ≤ vec_capacity reads.new }
        ensures room { stack.new.room ≡ stack.old.room }
    {
        // Each work is lawful, so no step has more reads than the buffer has room for.
        let _items = self.items();
        for step in 0..self.step_count(item) {
            reads.clear();
            for k in 0..self.read_count(item, step) {
                reads.push(filler.read(self.read(item, step, k))).unwrap();
            }
            let val = self.result(item, step, reads.as_slice(), stack);
            filler.fill(self.target(item, step), val);
        }
    }
}
