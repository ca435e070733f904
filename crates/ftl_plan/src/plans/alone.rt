//! All stages of a plan, one after the other, by the calling thread.
ghost use Rattle.std.specs.Prelude.{IfOk};
ghost use Rattle.ftl_deps.specs.reads.Meant.{meant};
ghost use Rattle.ftl_items.specs.stage_items.WordLaws.{HoldTheSolution};
ghost use Rattle.ftl_items.specs.solution.Solution.{solution};

use crate::plans::plan::Plan;
use ftl_steal::run_alone;
use std::alloc::{AllocError, Global};

/// The words of the solution, one for each cell. Stages that fill no cell are passed over.
#[inline(never)]
pub fn solve_alone(alloc: Global, plan: &Plan<'_>) -> Result<Vec<u64>, AllocError>
    ensures solution { IfOk result (λ v. HoldTheSolution
        (solution (meant plan.now.checked) plan.now.tree) v.items) }
{
    plan.words_fit();
    let filling = plan.filling_stages(alloc)?;
    let mut words = plan.first_words(alloc)?;
    for stage in 0..plan.stage_count() {
        if filling[stage as usize] {
            words = run_alone(alloc, &plan.stage(stage), words)?;
        }
    }
    Ok(words)
}
