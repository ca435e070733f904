// Two chains of items side by side.
ghost use Rattle.std.specs.Prelude.{◌≡◌, ◌+◌, ◌*◌, ◌<◌, ◌≤◌};
ghost use Rattle.ftl_replay.specs.example_works.Ladder.{ladder_read};

use crate::example_works::example::{Example, Solved};
use ftl_base::{CodeStack, Val, Width, add, word_of};
use ftl_cells::{CellKind, Meant, Work};
use std::alloc::{AllocError, Global};

/// Each item waits for the one two before it, and fills two cells, each with its own number: the
/// first from a Given cell or from the last cell of that item, the second from the first.
#[derive(Drop)]
pub struct Ladder {
    pub items: u8,
}

impl Meant for Ladder {
    ghost use Rattle.ftl_cells.specs.shared.Shape.{listed};
    ghost use Rattle.ftl_replay.specs.example_works.Ladder.{ladder};

    ghost meaning = { λ w. listed (ladder w.items) };
}

#[tactic(auto, using(crate::proofs::example_works::LadderLaws::ladder_facts))]
impl Work for Ladder {
    fn items(&self) -> u32 {
        self.items as u32
    }

    fn cells(&self) -> u32 {
        2 * self.items as u32 + 2
    }

    fn cell_kind(&self, cell: u32) -> CellKind {
        match cell {
            0 | 1 => CellKind::Given,
            _ => CellKind::Target,
        }
    }

    fn pred_count(&self, item: u32) -> u32 {
        if item < 2 { 0 } else { 1 }
    }

    fn next_count(&self, item: u32) -> u32 {
        let items = self.items as u32;
        if item + 2 < items { 1 } else { 0 }
    }

    fn next(&self, item: u32, _k: u32) -> u32 {
        item + 2
    }

    fn step_count(&self, _item: u32) -> u32 {
        2
    }

    fn target(&self, item: u32, step: u32) -> u32 {
        let _items = self.items;
        2 * item + 2 + step
    }

    fn read_count(&self, _item: u32, _step: u32) -> u32 {
        1
    }

    fn read(&self, item: u32, step: u32, _k: u32) -> u32 {
        let _items = self.items;
        match (item, step) {
            (0, 0) => 0,
            (_, 0) => 2 * item - 1,
            _ => 2 * item + 2,
        }
    }

    fn max_reads(&self) -> u32 {
        1
    }

    fn max_stack(&self) -> u32 {
        0
    }

    fn result(&self, item: u32, step: u32, reads: &[Val], _stack: &mut CodeStack) -> Val {
        let _items = self.items;
        let more = distance(item, step);
        add(Width::Narrow, reads[0], Val::num(more as i64))
    }
}

/// How far the cell that a step fills stands after the one that it reads.
fn distance(item: u32, step: u32) -> u32
    requires step { step < 2 }
    ensures far { ladder_read item step + result ≡ 2 * item + 2 + step }
    ensures few { result ≤ 3 }
{
    if step == 1 {
        1
    } else if item == 0 {
        2
    } else {
        3
    }
}

#[tactic(auto, using(crate::proofs::example_works::LadderLaws::ladder_facts))]
impl Example for Ladder {
    fn again(&self) -> Ladder {
        Ladder { items: self.items }
    }

    fn first(&self, alloc: Global) -> Result<Vec<u64>, AllocError> {
        let mut words = vec![in alloc; word_of(Val::num(0)), word_of(Val::num(1))]?;
        words.resize(2 * self.items as usize + 2, 0)?;
        Ok(words)
    }
}

#[tactic(auto, using(crate::proofs::example_works::LadderLaws::ladder_facts))]
impl Solved for Ladder {
    fn value_at(&self, cell: u32) -> Val {
        let _items = self.items;
        Val::num(cell as i64)
    }
}
