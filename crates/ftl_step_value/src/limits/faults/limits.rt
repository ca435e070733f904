//! The first fault of a plan.
ghost use Rattle.std.specs.Prelude.{◌≡◌, ◌≤◌, length, IfOk};
ghost use Rattle.std.specs.List.{range_with_len};
ghost use Rattle.ftl_model.specs.lists.FirstAlong.{first_along};
ghost use Rattle.ftl_deps.specs.reads.Meant.{meant};
ghost use Rattle.ftl_schedule.specs.stages.PassLimits.{IsWithinPassLimits};
ghost use Rattle.ftl_schedule.specs.stages.Stages.{stages_of};
ghost use Rattle.ftl_step_value.specs.limits.reads.ReadTables.{AreTables};
ghost use Rattle.ftl_step_value.specs.limits.faults.PlanFaults.{first_fault};
ghost use Rattle.ftl_step_value.specs.limits.faults.StageReads.{many_by, wide_by};

use crate::limits::faults::bound::is_far_from_limits;
use crate::limits::faults::fault::PlanFault;
use crate::limits::faults::reads::{StageReads, stage_reads};
use crate::limits::reads::{ReadTables, is_sound};
use ftl_schedule::places::Placed;
use ftl_tree::Tree;
use std::alloc::{AllocError, Global};

/// The first stage whose steps have more than 67108864 reads, or else the first step of more than
/// 1048576; none where there is neither. Takes time as there are nodes where counts alone tell that
/// there is none, else as there are instances.
#[tactic(auto, using(ftl_schedule::proofs::stages::FewPasses::few_stages))]
pub fn first_fault(
    alloc: Global,
    tables: &ReadTables,
    placed: &Placed,
    tree: &Tree<'_>,
) -> Result<Option<PlanFault>, AllocError>
    requires tables { AreTables (meant tree.now.checked) tables.now }
    requires limits { IsWithinPassLimits (stages_of placed.now) }
    ensures fault { IfOk result (λ fault. fault ≡ first_fault (meant tree.now.checked)
        (stages_of placed.now) tree.now.tree) }
{
    is_sound(tree.checked());
    if is_far_from_limits(tables, tree) {
        return Ok(None);
    }
    let counts = stage_reads(alloc, tables, placed, tree)?;
    match first_too_many(counts.as_slice()) {
        Some(fault) => Ok(Some(fault)),
        None => Ok(first_too_wide(counts.as_slice())),
    }
}

/// The first stage that reads too much.
fn first_too_many(counts: &[StageReads]) -> Option<PlanFault>
    requires few { length counts.now ≤ 2048 }
    ensures fault { result
        ≡ first_along (many_by counts.now) (range_with_len 0 (length counts.now)) }
{
    for stage in 0..counts.len() {
        let count = counts[stage].total;
        if count > 67108864 {
            return Some(PlanFault::TooManyReads {
                stage: stage as u32 + 1,
                count,
            });
        }
    }
    None
}

/// The first stage with a step that reads too much.
fn first_too_wide(counts: &[StageReads]) -> Option<PlanFault>
    requires few { length counts.now ≤ 2048 }
    ensures fault { result
        ≡ first_along (wide_by counts.now) (range_with_len 0 (length counts.now)) }
{
    for stage in 0..counts.len() {
        if let Some(count) = counts[stage].wide {
            return Some(PlanFault::StepTooWide {
                stage: stage as u32 + 1,
                count,
            });
        }
    }
    None
}
