// A chain of items.
ghost use Rattle.ftl_cells.specs.shared.Shape.{listed};
ghost use Rattle.ftl_replay.specs.example_works.Chain.{chain};

use crate::example_works::example::Example;
use ftl_base::{CodeStack, Val, Width, add, word_of};
use ftl_cells::{CellKind, Meant, Work};
use std::alloc::{AllocError, Global};

/// Each item reads the cell that the one before it filled, and adds 1.
#[derive(Drop)]
pub struct Chain {
    pub items: u16,
}

impl Meant for Chain {
    ghost use Rattle.ftl_cells.specs.shared.Shape.{listed};
    ghost use Rattle.ftl_replay.specs.example_works.Chain.{chain};

    ghost meaning = { λ w. listed (chain w.items) };
}

#[tactic(auto, using(crate::proofs::example_works::ChainLaws::chain_facts))]
impl Work for Chain {
    fn items(&self) -> u32 {
        self.items as u32
    }

    fn cells(&self) -> u32 {
        self.items as u32 + 1
    }

    fn cell_kind(&self, cell: u32) -> CellKind {
        if cell == 0 {
            CellKind::Given
        } else {
            CellKind::Target
        }
    }

    fn pred_count(&self, item: u32) -> u32 {
        item.min(1)
    }

    fn next_count(&self, item: u32) -> u32 {
        let items = self.items as u32;
        if item + 1 < items { 1 } else { 0 }
    }

    fn next(&self, item: u32, _k: u32) -> u32 {
        item + 1
    }

    fn step_count(&self, _item: u32) -> u32 {
        1
    }

    fn target(&self, item: u32, _step: u32) -> u32 {
        item + 1
    }

    fn read_count(&self, _item: u32, _step: u32) -> u32 {
        1
    }

    fn read(&self, item: u32, _step: u32, _k: u32) -> u32 {
        item
    }

    fn max_reads(&self) -> u32 {
        1
    }

    fn max_stack(&self) -> u32 {
        0
    }

    fn result(&self, _item: u32, _step: u32, reads: &[Val], _stack: &mut CodeStack) -> Val {
        // Read, so that its range is known.
        let _items = self.items;
        add(Width::Narrow, reads[0], Val::num(1))
    }
}

impl Example for Chain {
    fn again(&self) -> Chain {
        Chain { items: self.items }
    }

    #[tactic(auto, using(crate::proofs::example_works::ChainLaws::chain_first))]
    fn first(&self, alloc: Global) -> Result<Vec<u64>, AllocError> {
        let mut words = vec![in alloc; word_of(Val::num(0))]?;
        words.resize(self.items as usize + 1, 0)?;
        Ok(words)
    }
}
