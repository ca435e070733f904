// Eight items of which seven wait for the first.
ghost use Rattle.ftl_cells.specs.shared.Shape.{listed};
ghost use Rattle.ftl_replay.specs.example_works.Star.{star};

use crate::example_works::example::Example;
use ftl_base::{CodeStack, Val, Width, add, word_of};
use ftl_cells::{CellKind, Meant, Work};
use std::alloc::{AllocError, Global};

/// The first item fills the cell that the seven others read.
#[derive(Drop)]
pub struct Star;

impl Meant for Star {
    ghost use Rattle.ftl_cells.specs.shared.Shape.{listed};
    ghost use Rattle.ftl_replay.specs.example_works.Star.{star};

    ghost meaning = { λ _. listed star };
}

#[tactic(auto, using(crate::proofs::example_works::StarLaws::star_facts))]
impl Work for Star {
    fn items(&self) -> u32 {
        8
    }

    fn cells(&self) -> u32 {
        9
    }

    fn cell_kind(&self, cell: u32) -> CellKind {
        if cell == 0 {
            CellKind::Given
        } else {
            CellKind::Target
        }
    }

    fn pred_count(&self, item: u32) -> u32 {
        item.min(1)
    }

    fn next_count(&self, item: u32) -> u32 {
        if item == 0 { 7 } else { 0 }
    }

    fn next(&self, _item: u32, k: u32) -> u32 {
        k + 1
    }

    fn step_count(&self, _item: u32) -> u32 {
        1
    }

    fn target(&self, item: u32, _step: u32) -> u32 {
        item + 1
    }

    fn read_count(&self, _item: u32, _step: u32) -> u32 {
        1
    }

    fn read(&self, item: u32, _step: u32, _k: u32) -> u32 {
        item.min(1)
    }

    fn max_reads(&self) -> u32 {
        1
    }

    fn max_stack(&self) -> u32 {
        0
    }

    fn result(&self, item: u32, _step: u32, reads: &[Val], _stack: &mut CodeStack) -> Val {
        add(Width::Narrow, reads[0], Val::num(item.max(1) as i64))
    }
}

impl Example for Star {
    fn again(&self) -> Star {
        Star
    }

    #[tactic(auto, using(crate::proofs::example_works::StarLaws::star_first))]
    fn first(&self, alloc: Global) -> Result<Vec<u64>, AllocError> {
        let mut words = vec![in alloc; word_of(Val::num(5))]?;
        words.resize(9, 0)?;
        Ok(words)
    }
}
