// Eight items that wait for none.
ghost use Rattle.ftl_cells.specs.shared.Shape.{listed};
ghost use Rattle.ftl_replay.specs.example_works.Eight.{eight_alone};

use crate::example_works::example::Example;
use ftl_base::{CodeStack, Val, Width, add, word_of};
use ftl_cells::{CellKind, Meant, Work};
use std::alloc::{AllocError, Global};

/// Each item adds 1 to a cell that is Given.
#[derive(Drop)]
pub struct EightAlone;

impl Meant for EightAlone {
    ghost use Rattle.ftl_cells.specs.shared.Shape.{listed};
    ghost use Rattle.ftl_replay.specs.example_works.Eight.{eight_alone};

    ghost meaning = { λ _. listed eight_alone };
}

#[tactic(auto, using(crate::proofs::example_works::EightLaws::eight_facts))]
impl Work for EightAlone {
    fn items(&self) -> u32 {
        8
    }

    fn cells(&self) -> u32 {
        16
    }

    fn cell_kind(&self, cell: u32) -> CellKind {
        if cell < 8 {
            CellKind::Given
        } else {
            CellKind::Target
        }
    }

    fn pred_count(&self, _item: u32) -> u32 {
        0
    }

    fn next_count(&self, _item: u32) -> u32 {
        0
    }

    fn next(&self, _item: u32, _k: u32) -> u32 {
        unreachable!()
    }

    fn step_count(&self, _item: u32) -> u32 {
        1
    }

    fn target(&self, item: u32, _step: u32) -> u32 {
        8 + item
    }

    fn read_count(&self, _item: u32, _step: u32) -> u32 {
        1
    }

    fn read(&self, item: u32, _step: u32, _k: u32) -> u32 {
        item
    }

    fn max_reads(&self) -> u32 {
        1
    }

    fn max_stack(&self) -> u32 {
        0
    }

    fn result(&self, _item: u32, _step: u32, reads: &[Val], _stack: &mut CodeStack) -> Val {
        add(Width::Narrow, reads[0], Val::num(1))
    }
}

impl Example for EightAlone {
    fn again(&self) -> EightAlone {
        EightAlone
    }

    #[tactic(auto, using(crate::proofs::example_works::EightLaws::eight_first))]
    fn first(&self, alloc: Global) -> Result<Vec<u64>, AllocError> {
        let mut words = vec![in alloc;
            word_of(Val::num(0)),
            word_of(Val::num(1)),
            word_of(Val::num(2)),
            word_of(Val::num(3)),
            word_of(Val::num(4)),
            word_of(Val::num(5)),
            word_of(Val::num(6)),
            word_of(Val::num(7)),
        ]?;
        words.resize(16, 0)?;
        Ok(words)
    }
}
