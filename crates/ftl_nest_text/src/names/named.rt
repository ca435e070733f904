//! The numbers of the attributes and hosts that a schedule with nests names.

ghost use Rattle.std.specs.Prelude.{◌≡◌, ◌<◌, Ok, IfOk};
ghost use Rattle.ftl_model.specs.layout.Outcome.{Gives};
ghost use Rattle.ftl_deps.specs.reads.Meant.{meant};
ghost use Rattle.ftl_schedule.specs.names.Named.{attribute_number, each};
ghost use Rattle.ftl_schedule.specs.declared.names.fault.ScheduleFault.TheVariants.{OutOfMemory};
ghost use Rattle.ftl_nest_text.specs.names.NestNamed.{host_named, nest_named};
ghost use Rattle.ftl_nest_text.specs.names.NestNamed.{nesting_pass_named, nesting_schedule_named};
ghost use Rattle.ftl_nest_text.specs.names.NestNamed.{nesting_stage_named};
ghost use Rattle.ftl_nest_text.specs.names.RegionTests.{region_tests};

use crate::names::inner::{inner_stages_named, outside};
use crate::syntax::{WrittenNest, WrittenNestingPass, WrittenNestingSchedule, WrittenNestingStage};
use ftl_checked::Checked;
use ftl_nest_check::stages::{NestingPassList, NestingStageList};
use ftl_nest_check::{Nest, NestingPass, NestingSchedule, NestingStage};
use ftl_regions::Regions;
use ftl_schedule::names::attributes_named;
use ftl_schedule::{Schedule, ScheduleFault};
use sqlite_items::Items;
use std::alloc::Global;

/// The schedule by number, or its first fault in the order of the text.
pub fn nesting_schedule_named(
    alloc: Global,
    checked: &Checked,
    written: &WrittenNestingSchedule,
) -> Result<NestingSchedule, ScheduleFault>
    ensures exact { Gives OutOfMemory (λ s. s) result
        (nesting_schedule_named checked.now written.now) }
{
    let regions = Regions::new(alloc, checked)?;
    let stages = nesting_stages_named(alloc, checked, &regions, written.stages.as_slice())?;
    Ok(NestingSchedule { stages })
}

fn nesting_stages_named(
    alloc: Global,
    checked: &Checked,
    regions: &Regions<'_>,
    stages: &[WrittenNestingStage],
) -> Result<NestingStageList, ScheduleFault>
    requires regions { regions.now ≡ checked.now }
    ensures exact { Gives OutOfMemory (λ found. found) result
        (each (nesting_stage_named (region_tests (meant checked.now)) checked.now.grammar)
        stages.now) }
{
    let mut found = Items::new(alloc);
    for stage in stages {
        let passes = nesting_passes_named(alloc, checked, regions, stage.passes.as_slice())?;
        found.push(NestingStage { passes })?;
    }
    Ok(found)
}

#[tactic(auto, using(crate::proofs::names::EachSteps::each_steps))]
fn nesting_passes_named(
    alloc: Global,
    checked: &Checked,
    regions: &Regions<'_>,
    passes: &[WrittenNestingPass],
) -> Result<NestingPassList, ScheduleFault>
    requires regions { regions.now ≡ checked.now }
    ensures exact { Gives OutOfMemory (λ found. found) result
        (each (nesting_pass_named (region_tests (meant checked.now)) checked.now.grammar)
        passes.now) }
{
    let mut found = Items::new(alloc);
    for pass in passes {
        found.push(nesting_pass_named(alloc, checked, regions, pass)?)?;
    }
    Ok(found)
}

fn nesting_pass_named(
    alloc: Global,
    checked: &Checked,
    regions: &Regions<'_>,
    pass: &WrittenNestingPass,
) -> Result<NestingPass, ScheduleFault>
    requires regions { regions.now ≡ checked.now }
    ensures exact { Gives OutOfMemory (λ pass. pass) result
        (nesting_pass_named (region_tests (meant checked.now)) checked.now.grammar pass.now) }
{
    let attrs = attributes_named(alloc, checked, pass.attrs.as_slice())?;
    let nest = nest_named(alloc, checked, regions, pass, attrs.as_slice())?;
    let kind = pass.kind;
    Ok(NestingPass { kind, attrs, nest })
}

// What the pass nests, where its own list has these attributes.
fn nest_named(
    alloc: Global,
    checked: &Checked,
    regions: &Regions<'_>,
    pass: &WrittenNestingPass,
    attrs: &[u32],
) -> Result<Option<Nest>, ScheduleFault>
    requires regions { regions.now ≡ checked.now }
    requires own { each (attribute_number checked.now.grammar) pass.now.attrs ≡ Ok attrs.now }
    ensures exact { Gives OutOfMemory (λ nest. nest) result
        (nest_named (region_tests (meant checked.now)) checked.now.grammar pass.now.attrs
        pass.now.nest) }
{
    let Some(nest) = &pass.nest else {
        return Ok(None);
    };
    let host = host_named(checked, regions, nest)?;
    outside(checked, regions, host, pass.attrs.as_slice(), attrs)?;
    let stages = inner_stages_named(alloc, checked, regions, host, nest.stages.as_slice())?;
    let inner = Schedule { stages };
    Ok(Some(Nest { host, inner }))
}

// The host of a nest, where that is a class, and the nest is closed.
fn host_named(
    checked: &Checked,
    regions: &Regions<'_>,
    nest: &WrittenNest,
) -> Result<u32, ScheduleFault>
    requires regions { regions.now ≡ checked.now }
    ensures exact { Gives OutOfMemory (λ host. host) result
        (host_named (region_tests (meant checked.now)) checked.now.grammar nest.now) }
    ensures known { IfOk result (λ host. host < (meant checked.now).class_count) }
{
    let _lawful = checked.grammar();
    let Some(host) = checked.find_class(nest.host.text()) else {
        let name = nest.host.copy()?;
        return Err(ScheduleFault::UnknownHost { name });
    };
    if regions.is_closed(host) {
        Ok(host)
    } else {
        let host = nest.host.copy()?;
        Err(ScheduleFault::OpenNest { host })
    }
}
