//! The numbers of the attributes that a schedule names.

ghost use Rattle.ftl_model.specs.layout.Outcome.{Gives};
ghost use Rattle.ftl_schedule.specs.names.Named.{attribute_number, each, pass_named};
ghost use Rattle.ftl_schedule.specs.names.Named.{schedule_named, stage_named};
ghost use Rattle.ftl_schedule.specs.declared.names.fault.ScheduleFault.TheVariants.{OutOfMemory};

use crate::names::fault::ScheduleFault;
use crate::stages::{AttrList, Pass, PassList, Schedule, Stage, StageList};
use crate::syntax::{AttributeName, WrittenPass, WrittenSchedule, WrittenStage};
use ftl_checked::Checked;
use sqlite_items::Items;
use std::alloc::Global;

/// The schedule by number, or the first attribute in the order of the text that names no computed
/// one.
pub fn schedule_named(
    alloc: Global,
    checked: &Checked,
    written: &WrittenSchedule,
) -> Result<Schedule, ScheduleFault>
    ensures exact { Gives OutOfMemory (λ s. s) result
        (schedule_named checked.now.grammar written.now) }
{
    let stages = stages_named(alloc, checked, written.stages.as_slice())?;
    Ok(Schedule { stages })
}

/// The stages by number, or the first such attribute.
pub fn stages_named(
    alloc: Global,
    checked: &Checked,
    stages: &[WrittenStage],
) -> Result<StageList, ScheduleFault>
    ensures exact { Gives OutOfMemory (λ found. found) result
        (each (stage_named checked.now.grammar) stages.now) }
{
    let mut found = Items::new(alloc);
    for stage in stages {
        let passes = passes_named(alloc, checked, stage.passes.as_slice())?;
        found.push(Stage { passes })?;
    }
    Ok(found)
}

fn passes_named(
    alloc: Global,
    checked: &Checked,
    passes: &[WrittenPass],
) -> Result<PassList, ScheduleFault>
    ensures exact { Gives OutOfMemory (λ found. found) result
        (each (pass_named checked.now.grammar) passes.now) }
{
    let mut found = Items::new(alloc);
    for pass in passes {
        let attrs = attributes_named(alloc, checked, pass.attrs.as_slice())?;
        let kind = pass.kind;
        found.push(Pass { kind, attrs })?;
    }
    Ok(found)
}

/// The attributes of a list by number, or the first that names no computed one.
pub fn attributes_named(
    alloc: Global,
    checked: &Checked,
    names: &[AttributeName],
) -> Result<AttrList, ScheduleFault>
    ensures exact { Gives OutOfMemory (λ found. found) result
        (each (attribute_number checked.now.grammar) names.now) }
{
    let mut found = Items::new(alloc);
    for name in names {
        found.push(attribute_number(checked, name)?)?;
    }
    Ok(found)
}

fn attribute_number(checked: &Checked, name: &AttributeName) -> Result<u32, ScheduleFault>
    ensures exact { Gives OutOfMemory (λ attr. attr) result
        (attribute_number checked.now.grammar name.now) }
{
    match checked.find_attribute(name.owner.text(), name.attr.text()) {
        Some(attr) => Ok(attr),
        None => Err(ScheduleFault::UnknownAttribute {
            owner: name.owner.copy()?,
            attr: name.attr.copy()?,
        }),
    }
}
