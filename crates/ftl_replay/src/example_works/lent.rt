// A work that borrows what it speaks of.
ghost use Rattle.std.specs.Prelude.{◌≡◌, ◌<◌, ◌^◌, length, min, pos, IfSome};
ghost use Rattle.ftl_model.specs.layout.Values.{number};
ghost use Rattle.ftl_cells.specs.shared.Shape.{listed};
ghost use Rattle.ftl_replay.specs.example_works.Lent.{lent};

use crate::example_works::example::Example;
use ftl_base::{CodeStack, Val};
use ftl_cells::{CellKind, Filler, Meant, Work};
use std::alloc::{AllocError, Global};

/// Items that fill a cell each, with the numbers of a borrowed slice.
#[derive(Drop)]
pub struct Lent<'a> {
    pub numbers: &'a [u8],
    pub ghost few: { length numbers.now < 2 ^ 32 },
}

impl<'a> Lent<'a> {
    /// None where the numbers are too many.
    pub fn new(numbers: &'a [u8]) -> Option<Lent<'a>>
        ensures numbers { IfSome result (λ w. w.numbers.now ≡ numbers.now) }
    {
        if numbers.len() > 4294967295 {
            return None;
        }
        Some(Lent { numbers })
    }
}

impl<'a> Meant for Lent<'a> {
    ghost use Rattle.ftl_cells.specs.shared.Shape.{listed};
    ghost use Rattle.ftl_replay.specs.example_works.Lent.{lent};

    ghost meaning = { λ w. listed (lent w.numbers.now) };
}

#[tactic(auto, using(crate::proofs::example_works::LentLaws::lent_facts))]
impl<'a> Work for Lent<'a> {
    fn items(&self) -> u32 {
        self.numbers.len() as u32
    }

    fn cells(&self) -> u32 {
        self.numbers.len() as u32
    }

    fn cell_kind(&self, _cell: u32) -> CellKind {
        CellKind::Target
    }

    fn pred_count(&self, _item: u32) -> u32 {
        0
    }

    fn next_count(&self, _item: u32) -> u32 {
        0
    }

    fn next(&self, _item: u32, _k: u32) -> u32 {
        unreachable!()
    }

    fn step_count(&self, _item: u32) -> u32 {
        1
    }

    fn target(&self, item: u32, _step: u32) -> u32 {
        item
    }

    fn read_count(&self, _item: u32, _step: u32) -> u32 {
        0
    }

    fn read(&self, _item: u32, _step: u32, _k: u32) -> u32 {
        unreachable!()
    }

    fn max_reads(&self) -> u32 {
        0
    }

    fn max_stack(&self) -> u32 {
        0
    }

    fn result(&self, item: u32, _step: u32, _reads: &[Val], _stack: &mut CodeStack) -> Val {
        value_of_byte(self.numbers[item as usize])
    }

    fn run_item<F: Filler>(
        &self,
        item: u32,
        filler: &mut F,
        _reads: &mut Vec<Val>,
        _stack: &mut CodeStack,
    ) {
        filler.fill(item, value_of_byte(self.numbers[item as usize]));
    }
}

#[tactic(auto, using(crate::proofs::example_works::LentLaws::byte_value))]
fn value_of_byte(byte: u8) -> Val
    ensures value { result ≡ number (pos (min 255 byte)) }
{
    Val::num(byte as i64)
}

impl<'a> Example for Lent<'a> {
    fn again(&self) -> Lent<'a> {
        Lent {
            numbers: self.numbers,
        }
    }

    /// All are empty.
    #[tactic(auto, using(crate::proofs::example_works::LentLaws::lent_first))]
    fn first(&self, alloc: Global) -> Result<Vec<u64>, AllocError> {
        let mut words = Vec::new(alloc);
        words.resize(self.numbers.len(), 0)?;
        Ok(words)
    }
}
