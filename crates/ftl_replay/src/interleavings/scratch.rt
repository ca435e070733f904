ghost use Rattle.std.specs.Prelude.{◌≡◌, ℕ, ◌<◌, ◌≤◌, IfOk, length, slice_index, vec_capacity};
ghost use Rattle.ftl_cells.specs.shared.Work.{IsLawfulWork, IsStepOfItem, read_total, read_of};
ghost use Rattle.ftl_cells.specs.shared.Work.{solved_word, target_of, solution_at, cell_total};
ghost use Rattle.ftl_cells.specs.shared.State.{cell_word};

use ftl_base::{CodeStack, Val, val_of};
use ftl_cells::Work;
use std::alloc::{AllocError, Global};

/// What the results of steps are computed with: the values of a step's reads, and a stack. Made
/// once, so that no fill takes memory.
#[derive(Drop)]
pub(crate) struct Scratch {
    reads: Vec<Val>,
    stack: CodeStack,
}

impl Scratch {
    pub(crate) fn new<W: Work>(alloc: Global, work: &W) -> Result<Scratch, AllocError>
        ensures reads { IfOk result (λ s. (W.meaning work.now).max_reads ≤ vec_capacity s.reads) }
        ensures room { IfOk result (λ s. (W.meaning work.now).max_stack ≤ s.stack.room) }
    {
        Ok(Scratch {
            reads: Vec::with_capacity(alloc, work.max_reads() as usize)?,
            stack: CodeStack::new(alloc, work.max_stack())?,
        })
    }

    /// What a step gives over the values that its reads gave. The cells hold them still, since no
    /// cell changes once it is filled.
    pub(crate) fn result_of<W: Work>(&mut self, work: &W, row: &[u64], item: u32, step: u32) -> Val
        requires step { IsStepOfItem (W.meaning work.now) item step }
        requires cells { cell_total (W.meaning work.now) < length row.now }
        requires read { (k : ℕ) → k < read_total (W.meaning work.now) item step
            → slice_index row.now (cell_word (read_of (W.meaning work.now) item step k))
            ≡ solved_word (W.meaning work.now) (read_of (W.meaning work.now) item step k) }
        requires reads { (W.meaning work.now).max_reads ≤ vec_capacity self.old.reads }
        requires room { (W.meaning work.now).max_stack ≤ self.old.stack.room }
        ensures value { result
            ≡ solution_at (W.meaning work.now) (target_of (W.meaning work.now) item step) }
        ensures reads { vec_capacity self.old.reads ≤ vec_capacity self.new.reads }
        ensures room { self.new.stack.room ≡ self.old.stack.room }
    {
        // Each work is lawful, so no step has more reads than the buffer has room for.
        let _items = work.items();
        self.reads.clear();
        for k in 0..work.read_count(item, step) {
            let word = row[1 + work.read(item, step, k) as usize];
            self.reads.push(val_of(word).unwrap()).unwrap();
        }
        work.result(item, step, self.reads.as_slice(), &mut self.stack)
    }
}
