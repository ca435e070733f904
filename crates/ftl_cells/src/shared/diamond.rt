use crate::shared::kind::CellKind;
use crate::shared::work::{Meant, Work};
use ftl_base::{CodeStack, Val, Width, add};

/// A work of four items, for tests: the first comes before two, and both of these before the last.
#[derive(Drop)]
pub struct Diamond;

impl Meant for Diamond {
    ghost use Rattle.ftl_cells.specs.shared.Diamond.{diamond};

    ghost meaning = { λ _. diamond };
}

#[tactic(auto, using(crate::proofs::shared::DiamondLaws::diamond_is_lawful, crate::proofs::shared::DiamondLaws::only_step), unfolding(crate::specs::shared::Work::cell_total, crate::specs::shared::Work::kind_at, crate::specs::shared::Work::solution_at, crate::specs::shared::Work::item_total, crate::specs::shared::Work::pred_total, crate::specs::shared::Work::next_total, crate::specs::shared::Work::next_at, crate::specs::shared::Work::step_total, crate::specs::shared::Work::target_of, crate::specs::shared::Work::reads_of_step))]
impl Work for Diamond {
    fn items(&self) -> u32 {
        4
    }

    fn cells(&self) -> u32 {
        5
    }

    fn cell_kind(&self, cell: u32) -> CellKind {
        match cell {
            0 => CellKind::Given,
            1 | 2 | 3 | 4 => CellKind::Target,
            _ => unreachable!(),
        }
    }

    fn pred_count(&self, item: u32) -> u32 {
        match item {
            0 => 0,
            1 | 2 => 1,
            3 => 2,
            _ => unreachable!(),
        }
    }

    fn next_count(&self, item: u32) -> u32 {
        match item {
            0 => 2,
            1 | 2 => 1,
            3 => 0,
            _ => unreachable!(),
        }
    }

    fn next(&self, item: u32, k: u32) -> u32 {
        match (item, k) {
            (0, 0) => 1,
            (0, 1) => 2,
            (1, 0) | (2, 0) => 3,
            _ => unreachable!(),
        }
    }

    fn step_count(&self, _item: u32) -> u32 {
        1
    }

    fn target(&self, item: u32, step: u32) -> u32 {
        match (item, step) {
            (0, 0) => 1,
            (1, 0) => 2,
            (2, 0) => 3,
            (3, 0) => 4,
            _ => unreachable!(),
        }
    }

    fn read_count(&self, item: u32, step: u32) -> u32 {
        match (item, step) {
            (0, 0) | (1, 0) | (2, 0) => 1,
            (3, 0) => 2,
            _ => unreachable!(),
        }
    }

    fn read(&self, item: u32, step: u32, k: u32) -> u32 {
        match (item, step, k) {
            (0, 0, 0) => 0,
            (1, 0, 0) | (2, 0, 0) => 1,
            (3, 0, 0) => 2,
            (3, 0, 1) => 3,
            _ => unreachable!(),
        }
    }

    fn max_reads(&self) -> u32 {
        2
    }

    fn max_stack(&self) -> u32 {
        0
    }

    fn result(&self, item: u32, step: u32, reads: &[Val], stack: &mut CodeStack) -> Val {
        match (item, step, reads) {
            (0, 0, [a]) => add(Width::Narrow, *a, Val::num(1)),
            (1, 0, [a]) => add(Width::Narrow, *a, *a),
            (2, 0, [a]) => add(Width::Narrow, *a, Val::num(-10)),
            (3, 0, [a, b]) => add(Width::Narrow, *a, *b),
            _ => unreachable!(),
        }
    }
}
