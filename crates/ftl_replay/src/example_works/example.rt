// Works whose words before and whose solution can be asked for.
ghost use Rattle.std.specs.Prelude.{◌≡◌, ◌<◌, IfOk};
ghost use Rattle.ftl_cells.specs.shared.Work.{cell_total, solution_at};
ghost use Rattle.ftl_cells.specs.shared.State.{AreFirst};
ghost use Rattle.ftl_cells.specs.shared.Diamond.{diamond};

use ftl_base::{Val, word_of};
use ftl_cells::{Diamond, Work};
use std::alloc::{AllocError, Global};

/// A work for tests, which tells the words of its cells before.
pub trait Example: Work {
    /// The same work.
    fn again(&self) -> Self
        ensures same { Self.meaning result ≡ Self.meaning self.now };

    /// The words of the cells before.
    fn first(&self, alloc: Global) -> Result<Vec<u64>, AllocError>
        ensures first { IfOk result (λ v. AreFirst (Self.meaning self.now) v.items) };
}

/// A work for tests, which also tells the solution.
pub trait Solved: Example {
    /// The value that the solution has at the cell.
    fn value_at(&self, cell: u32) -> Val
        requires cell { cell < cell_total (Self.meaning self.now) }
        ensures value { result ≡ solution_at (Self.meaning self.now) cell };
}

impl Example for Diamond {
    fn again(&self) -> Diamond {
        Diamond
    }

    /// 7 in the first cell, and the others empty.
    #[tactic(auto, using(ftl_cells::proofs::shared::DiamondLaws::diamond_first))]
    fn first(&self, alloc: Global) -> Result<Vec<u64>, AllocError> {
        Ok(vec![in alloc; word_of(Val::num(7)), 0, 0, 0, 0]?)
    }
}

impl Solved for Diamond {
    #[tactic(auto, unfolding(ftl_cells::specs::shared::Work::cell_total))]
    fn value_at(&self, cell: u32) -> Val {
        diamond_value(cell)
    }
}

#[tactic(auto, unfolding(ftl_cells::specs::shared::Work::solution_at))]
fn diamond_value(cell: u32) -> Val
    requires cell { cell < 5 }
    ensures value { result ≡ solution_at diamond cell }
{
    match cell {
        0 => Val::num(7),
        1 => Val::num(8),
        2 => Val::num(16),
        3 => Val::num(-2),
        4 => Val::num(14),
        _ => unreachable!(),
    }
}
