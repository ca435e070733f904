//! A work without what it may share with other threads.
ghost use Rattle.std.specs.Prelude.{◌≡◌, ◌<◌, ◌≤◌, vec_capacity};
ghost use Rattle.ftl_cells.specs.shared.Work.{cell_total, item_total, step_total};
ghost use Rattle.ftl_cells.specs.shared.State.{live};
ghost use Rattle.ftl_cells.specs.declared.shared.place.HandPlace.TheVariants.{Working};

use ftl_base::{CodeStack, Val};
use ftl_cells::{Filler, Meant, Work};

/// What it takes to fill the items of a work one after the other.
pub(crate) trait RunItems: Meant {
    /// How many cells there are.
    fn cell_count(&self) -> u32
        ensures count { result ≡ cell_total (Self.meaning self.now) };

    /// No step reads more.
    fn most_reads(&self) -> u32
        ensures bound { result ≡ (Self.meaning self.now).max_reads };

    /// No step needs a stack with more room.
    fn most_stack(&self) -> u32
        ensures bound { result ≡ (Self.meaning self.now).max_stack };

    /// Drives a filler through an item.
    fn run_one<F: Filler>(
        &self,
        item: u32,
        filler: &mut F,
        reads: &mut Vec<Val>,
        stack: &mut CodeStack,
    )
        requires item { item < item_total (Self.meaning self.now) }
        requires fit { F.fit filler.old }
        requires of { F.of filler.old ≡ Self.meaning self.now }
        requires working { F.place filler.old ≡ live (Working item 0 0) }
        requires reads { (Self.meaning self.now).max_reads ≤ vec_capacity reads.old }
        requires room { (Self.meaning self.now).max_stack ≤ stack.old.room }
        ensures fit { F.fit filler.new }
        ensures of { F.of filler.new ≡ F.of filler.old }
        ensures filled { F.place filler.new
            ≡ live (Working item (step_total (Self.meaning self.now) item) 0) }
        ensures keeps { F.keeps filler.old filler.new }
        ensures reads { vec_capacity reads.old ≤ vec_capacity reads.new }
        ensures room { stack.new.room ≡ stack.old.room };
}

impl<W: Work> RunItems for W {
    fn cell_count(&self) -> u32 {
        self.cells()
    }

    fn most_reads(&self) -> u32 {
        self.max_reads()
    }

    fn most_stack(&self) -> u32 {
        self.max_stack()
    }

    fn run_one<F: Filler>(
        &self,
        item: u32,
        filler: &mut F,
        reads: &mut Vec<Val>,
        stack: &mut CodeStack,
    ) {
        self.run_item(item, filler, reads, stack);
    }
}
