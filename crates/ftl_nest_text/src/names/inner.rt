//! The numbers of the attributes that the lists of a nest name, and which side of it they are on.

ghost use Rattle.std.specs.Prelude.{◌≡◌, ◌<◌, length, slice_index_or, Ok, IfOk};
ghost use Rattle.ftl_model.specs.layout.Outcome.{Gives};
ghost use Rattle.ftl_deps.specs.reads.Meant.{meant};
ghost use Rattle.ftl_schedule.specs.names.Named.{attribute_number, each};
ghost use Rattle.ftl_schedule.specs.declared.syntax.types.AttributeName.{AttributeName};
ghost use Rattle.ftl_schedule.specs.declared.names.fault.ScheduleFault.TheVariants.{NestAttribute};
ghost use Rattle.ftl_schedule.specs.declared.names.fault.ScheduleFault.TheVariants.{OutOfMemory};
ghost use Rattle.ftl_nest_text.specs.names.NestNamed.{inner_number, inner_pass_named};
ghost use Rattle.ftl_nest_text.specs.names.NestNamed.{inner_stage_named, outer_number};
ghost use Rattle.ftl_nest_text.specs.names.RegionTests.{region_tests};

use ftl_checked::Checked;
use ftl_regions::Regions;
use ftl_schedule::stages::{PassList, StageList};
use ftl_schedule::syntax::{AttributeName, WrittenPass, WrittenStage};
use ftl_schedule::{AttrList, Pass, ScheduleFault, Stage};
use sqlite_items::Items;
use std::alloc::{AllocError, Global};

/// The stages of a nest with this host by number, or their first fault.
pub(crate) fn inner_stages_named(
    alloc: Global,
    checked: &Checked,
    regions: &Regions<'_>,
    host: u32,
    stages: &[WrittenStage],
) -> Result<StageList, ScheduleFault>
    requires regions { regions.now ≡ checked.now }
    requires host { host < (meant checked.now).class_count }
    ensures exact { Gives OutOfMemory (λ found. found) result
        (each (inner_stage_named (region_tests (meant checked.now)) checked.now.grammar host)
        stages.now) }
{
    let mut found = Items::new(alloc);
    for stage in stages {
        let passes = inner_passes_named(alloc, checked, regions, host, stage.passes.as_slice())?;
        found.push(Stage { passes })?;
    }
    Ok(found)
}

fn inner_passes_named(
    alloc: Global,
    checked: &Checked,
    regions: &Regions<'_>,
    host: u32,
    passes: &[WrittenPass],
) -> Result<PassList, ScheduleFault>
    requires regions { regions.now ≡ checked.now }
    requires host { host < (meant checked.now).class_count }
    ensures exact { Gives OutOfMemory (λ found. found) result
        (each (inner_pass_named (region_tests (meant checked.now)) checked.now.grammar host)
        passes.now) }
{
    let mut found = Items::new(alloc);
    for pass in passes {
        let attrs = inner_attributes_named(alloc, checked, regions, host, pass.attrs.as_slice())?;
        let kind = pass.kind;
        found.push(Pass { kind, attrs })?;
    }
    Ok(found)
}

#[tactic(auto, using(crate::proofs::names::EachSteps::each_steps))]
fn inner_attributes_named(
    alloc: Global,
    checked: &Checked,
    regions: &Regions<'_>,
    host: u32,
    names: &[AttributeName],
) -> Result<AttrList, ScheduleFault>
    requires regions { regions.now ≡ checked.now }
    requires host { host < (meant checked.now).class_count }
    ensures exact { Gives OutOfMemory (λ found. found) result
        (each (inner_number (region_tests (meant checked.now)) checked.now.grammar host)
        names.now) }
{
    let mut found = Items::new(alloc);
    for name in names {
        found.push(inner_number(checked, regions, host, name)?)?;
    }
    Ok(found)
}

fn inner_number(
    checked: &Checked,
    regions: &Regions<'_>,
    host: u32,
    name: &AttributeName,
) -> Result<u32, ScheduleFault>
    requires regions { regions.now ≡ checked.now }
    requires host { host < (meant checked.now).class_count }
    ensures exact { Gives OutOfMemory (λ attr. attr) result
        (inner_number (region_tests (meant checked.now)) checked.now.grammar host name.now) }
{
    let _lawful = checked.grammar();
    let Some(attr) = checked.find_attribute(name.owner.text(), name.attr.text()) else {
        return Err(ScheduleFault::UnknownAttribute {
            owner: name.owner.copy()?,
            attr: name.attr.copy()?,
        });
    };
    if regions.has_attribute(host, attr) {
        Ok(attr)
    } else {
        Err(on_wrong_side(name)?)
    }
}

/// Nothing, where the attributes that an own list names, which are given, are all outside the
/// host's region; else the first that isn't.
pub(crate) fn outside(
    checked: &Checked,
    regions: &Regions<'_>,
    host: u32,
    names: &[AttributeName],
    attrs: &[u32],
) -> Result<(), ScheduleFault>
    requires regions { regions.now ≡ checked.now }
    requires host { host < (meant checked.now).class_count }
    requires own { each (attribute_number checked.now.grammar) names.now ≡ Ok attrs.now }
    ensures exact { Gives OutOfMemory (λ none. attrs.now) result
        (each (outer_number (region_tests (meant checked.now)) checked.now.grammar host)
        names.now) }
{
    let _lawful = checked.grammar();
    match regions.first_inside(host, attrs) {
        Some(place) => Err(on_wrong_side(name_at(names, place))?),
        None => Ok(()),
    }
}

// The name at a place.
fn name_at(names: &[AttributeName], place: usize) -> &AttributeName
    requires within { place < length names.now }
    ensures name { (x : AttributeName) → result.now ≡ slice_index_or names.now place x }
{
    &names[place]
}

// The fault of an attribute on the wrong side of a nest.
fn on_wrong_side(name: &AttributeName) -> Result<ScheduleFault, AllocError>
    ensures fault { IfOk result (λ f. f ≡ NestAttribute name.now.owner name.now.attr) }
{
    let owner = name.owner.copy()?;
    let attr = name.attr.copy()?;
    Ok(ScheduleFault::NestAttribute { owner, attr })
}
