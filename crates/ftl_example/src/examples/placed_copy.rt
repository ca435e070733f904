//! The places of the attributes of a schedule that is kept.
ghost use Rattle.std.specs.Prelude.{◌≡◌, [], None, IfErr, IfOk};
ghost use Rattle.ftl_deps.specs.reads.Meant.{meant};
ghost use Rattle.ftl_example.specs.declared.trees.fault.ExampleFault.TheVariants as fault;
ghost use Rattle.ftl_order.specs.faults.FaultLaws.{AreComputed};
ghost use Rattle.ftl_order.specs.faults.FirstFault.{first_twice};
ghost use Rattle.ftl_order.specs.orders.Schedule.{entries};
ghost use Rattle.ftl_schedule.specs.stages.Stages.{stages_of};

use crate::trees::ExampleFault;
use ftl_checked::Checked;
use ftl_schedule::places::Placed;
use ftl_schedule::{Pass, Schedule, Stage, attribute_count};
use sqlite_items::Items;
use std::alloc::{AllocError, Global};

/// A copy of a schedule in which no attribute has two entries, with the place of each attribute.
pub(crate) fn placed_copy(
    alloc: Global,
    checked: &Checked,
    schedule: &Schedule,
) -> Result<Placed, ExampleFault>
    requires computed { AreComputed (meant checked.now) (stages_of schedule.now) }
    requires none { first_twice [] (entries (stages_of schedule.now)) ≡ None }
    ensures same { IfOk result (λ p. p ≡ schedule.now) }
    ensures memory { IfErr result (λ e. e ≡ fault.OutOfMemory) }
{
    let copy = schedule_copy(alloc, schedule)?;
    // No attribute has two entries, so that memory alone can be lacking.
    match Placed::new(alloc, attribute_count(checked), copy) {
        Ok(placed) => Ok(placed),
        Err(_) => Err(ExampleFault::OutOfMemory),
    }
}

fn schedule_copy(alloc: Global, schedule: &Schedule) -> Result<Schedule, AllocError>
    ensures same { IfOk result (λ s. s ≡ schedule.now) }
{
    let mut stages = Items::new(alloc);
    let all = schedule.stages.as_slice();
    for stage in 0..all.len() {
        stages.push(stage_copy(alloc, &all[stage])?)?;
    }
    Ok(Schedule { stages })
}

fn stage_copy(alloc: Global, stage: &Stage) -> Result<Stage, AllocError>
    ensures same { IfOk result (λ s. s ≡ stage.now) }
{
    let mut passes = Items::new(alloc);
    let all = stage.passes.as_slice();
    for pass in 0..all.len() {
        passes.push(pass_copy(alloc, &all[pass])?)?;
    }
    Ok(Stage { passes })
}

fn pass_copy(alloc: Global, pass: &Pass) -> Result<Pass, AllocError>
    ensures same { IfOk result (λ p. p ≡ pass.now) }
{
    let attrs = Items::from_slice(alloc, pass.attrs.as_slice())?;
    Ok(Pass {
        kind: pass.kind,
        attrs,
    })
}
