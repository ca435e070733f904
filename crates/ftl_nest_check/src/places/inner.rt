//! The entries of what passes nest.

ghost use Rattle.std.specs.Prelude.{◌≡◌, IfOk};
ghost use Rattle.ftl_nest_check.specs.places.NestPlaced.{entries_in, inner_entries, stage_entries};
ghost use Rattle.ftl_nest_check.specs.places.NestPlaced.{place_in_entries, place_in_passes};
ghost use Rattle.ftl_nest_check.specs.places.NestPlaced.{place_in_stages};

use crate::stages::{Nest, NestingSchedule, NestingStage};
use ftl_schedule::PassKind;
use ftl_schedule::places::{Entry, SchedulePlace, all_entries};
use sqlite_items::Items;
use std::alloc::{AllocError, Global};

const FIRST_PLACE: SchedulePlace = SchedulePlace {
    stage: 0,
    pass: 0,
    kind: PassKind::TopDown,
    index: 0,
};

/// For each pass of a stage the entries of its nest, each at its place in that; none where it nests
/// nothing.
#[derive(Drop)]
pub struct StageEntries {
    pub passes: Items<Items<Entry>>,
}

/// Those of all stages.
pub(crate) fn inner_entries(
    alloc: Global,
    schedule: &NestingSchedule,
) -> Result<Items<StageEntries>, AllocError>
    ensures entries { IfOk result (λ rows. rows ≡ inner_entries schedule.now) }
{
    let mut rows = Items::new(alloc);
    let all = schedule.stages.as_slice();
    for stage in 0..all.len() {
        rows.push(stage_entries(alloc, &all[stage])?)?;
    }
    Ok(rows)
}

fn stage_entries(alloc: Global, stage: &NestingStage) -> Result<StageEntries, AllocError>
    ensures entries { IfOk result (λ row. row ≡ stage_entries stage.now) }
{
    let mut passes = Items::new(alloc);
    let all = stage.passes.as_slice();
    for pass in 0..all.len() {
        passes.push(entries_in(alloc, &all[pass].nest)?)?;
    }
    Ok(StageEntries { passes })
}

fn entries_in(alloc: Global, nest: &Option<Nest>) -> Result<Items<Entry>, AllocError>
    ensures entries { IfOk result (λ these. these ≡ entries_in nest.now) }
{
    match nest {
        Some(nest) => all_entries(alloc, &nest.inner),
        None => Ok(Items::new(alloc)),
    }
}

/// The place in its nest of the entry of this number of the nest at a place; the first place where
/// there is no such.
pub(crate) fn place_in_stages(
    stages: &[StageEntries],
    place: SchedulePlace,
    number: usize,
) -> SchedulePlace
    ensures place { result ≡ place_in_stages stages.now place.stage place.pass number }
{
    if place.stage < stages.len() {
        place_in_passes(stages[place.stage].passes.as_slice(), place.pass, number)
    } else {
        FIRST_PLACE
    }
}

fn place_in_passes(passes: &[Items<Entry>], pass: usize, number: usize) -> SchedulePlace
    ensures place { result ≡ place_in_passes passes.now pass number }
{
    if pass < passes.len() {
        place_in_entries(passes[pass].as_slice(), number)
    } else {
        FIRST_PLACE
    }
}

fn place_in_entries(entries: &[Entry], number: usize) -> SchedulePlace
    ensures place { result ≡ place_in_entries entries.now number }
{
    if number < entries.len() {
        entries[number].schedule_place
    } else {
        FIRST_PLACE
    }
}
