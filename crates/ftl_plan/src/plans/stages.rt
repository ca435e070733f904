//! What a plan keeps of its stages.
ghost use Rattle.std.specs.Prelude.{◌≤◌, length, Contains, IfOk};
ghost use Rattle.std.specs.List.{All};
ghost use Rattle.ftl_deps.specs.reads.Meant.{meant};
ghost use Rattle.ftl_cursors.specs.items.HostRows.{hosts_of};
ghost use Rattle.ftl_plan.specs.plans.PlannedStages.{AreHostsAmong, AreNestsKept, AreStagesKept};
ghost use Rattle.ftl_plan.specs.plans.PlannedStages.{HaveFewPasses, IsNestKept, IsStageKept};
ghost use Rattle.ftl_plan.specs.plans.PlannedStages.{pass_hosts};

use crate::plans::kept::PlanStage;
use crate::plans::passes::{inner_passes, own_passes, pass_hosts};
use ftl_checked::Checked;
use ftl_cursors::{StageRows, TreeRows};
use ftl_host_cursors::NestRows;
use ftl_nest_check::{Nest, NestingPass, NestingStage};
use ftl_visit::RuleIndex;
use std::alloc::{AllocError, Global};

/// What is kept of each stage.
pub(crate) fn kept_stages(
    alloc: Global,
    checked: &Checked,
    items: &TreeRows<'_>,
    stages: &[NestingStage],
) -> Result<Vec<PlanStage>, AllocError>
    requires few { HaveFewPasses stages.now }
    requires hosts { All (AreHostsAmong (hosts_of items.now)) stages.now }
    ensures kept { IfOk result (λ v. AreStagesKept (meant checked.now) items.now stages.now
        v.items) }
{
    let index = RuleIndex::new(alloc, checked)?;
    let mut kept = Vec::with_capacity(alloc, stages.len())?;
    for stage in stages {
        kept.push(kept_stage(alloc, &index, items, stage.passes.as_slice())?)?;
    }
    Ok(kept)
}

/// What is kept of the stage with these passes.
fn kept_stage(
    alloc: Global,
    index: &RuleIndex<'_>,
    items: &TreeRows<'_>,
    passes: &[NestingPass],
) -> Result<PlanStage, AllocError>
    requires few { length passes.now ≤ 2048 }
    requires hosts { All (Contains (hosts_of items.now)) (pass_hosts passes.now) }
    ensures kept { IfOk result (IsStageKept (meant index.now) items.now passes.now) }
{
    let own = own_passes(alloc, passes)?;
    let hosts = pass_hosts(alloc, passes)?;
    let rows = StageRows::new(alloc, index, items, own.as_slice(), hosts.as_slice())?;
    let nests = kept_nests(alloc, index, passes)?;
    Ok(PlanStage {
        passes: own,
        rows,
        nests,
    })
}

/// What is kept of what each of these passes nests.
fn kept_nests(
    alloc: Global,
    index: &RuleIndex<'_>,
    passes: &[NestingPass],
) -> Result<Vec<Option<NestRows>>, AllocError>
    ensures nests { IfOk result (λ v. AreNestsKept (meant index.now) passes.now v.items) }
{
    let mut nests = Vec::with_capacity(alloc, passes.len())?;
    for pass in passes {
        nests.push(kept_nest(alloc, index, &pass.nest)?)?;
    }
    Ok(nests)
}

/// What is kept of what a pass nests.
fn kept_nest(
    alloc: Global,
    index: &RuleIndex<'_>,
    nest: &Option<Nest>,
) -> Result<Option<NestRows>, AllocError>
    ensures nest { IfOk result (IsNestKept (meant index.now) nest.now) }
{
    match nest {
        None => Ok(None),
        Some(nest) => {
            let passes = inner_passes(alloc, nest.inner.stages.as_slice())?;
            let rows = NestRows::new(alloc, index, nest.host, passes)?;
            Ok(Some(rows))
        }
    }
}
