//! The entries of a schedule, one after the other.

ghost use Rattle.std.specs.Prelude.{◌≡◌, ◌++◌, IfOk, OnOk};
ghost use Rattle.ftl_schedule.specs.places.Entries.{all_entries, entries_of_pass, entries_of_stage};

use crate::places::schedule_place::SchedulePlace;
use crate::stages::{Pass, PassKind, Schedule};
use sqlite_items::Items;
use std::alloc::{AllocError, Global};

/// An attribute where it stands in a schedule.
#[derive(Clone, Copy, Debug, PartialEq, Eq)]
pub struct Entry {
    pub attr: u32,
    pub schedule_place: SchedulePlace,
}

/// The entries of all passes, in the order of the text.
pub fn all_entries(alloc: Global, schedule: &Schedule) -> Result<Items<Entry>, AllocError>
    ensures entries { IfOk result (λ found. found ≡ all_entries schedule.now) }
{
    let mut found = Items::new(alloc);
    let stages = schedule.stages.as_slice();
    for stage in 0..stages.len() {
        stage_entries(&mut found, stage, stages[stage].passes.as_slice())?;
    }
    Ok(found)
}

fn stage_entries(found: &mut Items<Entry>, stage: usize, passes: &[Pass]) -> Result<(), AllocError>
    ensures added { OnOk result (found.new ≡ found.old ++ entries_of_stage stage passes.now) }
{
    for pass in 0..passes.len() {
        let kind = passes[pass].kind;
        pass_entries(found, stage, pass, kind, passes[pass].attrs.as_slice())?;
    }
    Ok(())
}

fn pass_entries(
    found: &mut Items<Entry>,
    stage: usize,
    pass: usize,
    kind: PassKind,
    attrs: &[u32],
) -> Result<(), AllocError>
    ensures added { OnOk result (found.new
        ≡ found.old ++ entries_of_pass stage pass kind attrs.now) }
{
    for index in 0..attrs.len() {
        let schedule_place = SchedulePlace {
            stage,
            pass,
            kind,
            index,
        };
        found.push(Entry {
            attr: attrs[index],
            schedule_place,
        })?;
    }
    Ok(())
}
