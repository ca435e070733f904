//! Schedules whose entries all differ, with the place of each attribute.

ghost use Rattle.std.specs.Prelude.{◌≡◌, ◌<◌, ℕ, [], None, length, replicate, Contains, IfOk};
ghost use Rattle.ftl_model.specs.lists.Lists.{is_listed};
ghost use Rattle.ftl_model.specs.layout.Outcome.{Gives};
ghost use Rattle.ftl_order.specs.orders.Schedule.{entries, placing_of};
ghost use Rattle.ftl_order.specs.faults.FirstFault.{first_twice};
ghost use Rattle.ftl_order.specs.declared.faults.fault.VerifyFault.TheVariants.{OutOfMemory};
ghost use Rattle.ftl_schedule.specs.stages.Stages.{stages_of};
ghost use Rattle.ftl_schedule.specs.places.Entries.{all_entries, attributes_of, entry_of};
ghost use Rattle.ftl_schedule.specs.places.Entries.{schedule_place_meant};
ghost use Rattle.ftl_schedule.specs.places.Placed.{AreBelow, HasPlaces, without_twice};

use crate::places::entries::{Entry, all_entries};
use crate::places::schedule_place::SchedulePlace;
use crate::stages::{PassKind, Schedule};
use ftl_order::VerifyFault;
use sqlite_items::Items;
use std::alloc::{AllocError, Global};
use std::marker::Model;

/// A schedule in which no attribute has two entries, with the place of each attribute. Contracts
/// see the schedule.
#[derive(Drop)]
pub struct Placed {
    schedule: Schedule,
    places: Items<Option<SchedulePlace>>,
}

impl Model for Placed {
    ghost use Rattle.ftl_schedule.specs.declared.stages.types.Schedule.{Schedule};
    ghost use Rattle.ftl_schedule.specs.places.Placed.{IsPlaced};

    ghost Value = { Schedule };

    ghost view = { λ p. p.schedule };

    ghost invariant = { λ p. IsPlaced p.schedule p.places };
}

impl Placed {
    /// The places of a schedule of `attr_count` attributes, or the first attribute that has a
    /// second entry.
    #[tactic(auto, using(crate::proofs::places::EntryLists::entry_steps))]
    pub fn new(alloc: Global, attr_count: u32, schedule: Schedule) -> Result<Placed, VerifyFault>
        requires known { (a : ℕ) → Contains (entries (stages_of schedule)) a → a < attr_count }
        ensures exact { Gives OutOfMemory (λ p. p) result (without_twice schedule) }
    {
        let entries = all_entries(alloc, &schedule)?;
        let mut places = no_places(alloc, attr_count)?;
        match fill(&mut places, entries.as_slice()) {
            Some(fault) => Err(fault),
            None => Ok(Placed { schedule, places }),
        }
    }

    pub fn schedule(&self) -> &Schedule
        ensures schedule { result.now ≡ self.now }
    {
        &self.schedule
    }

    /// Where the attribute stands. One without an entry stands in a stage past the last.
    #[tactic(auto, using(crate::proofs::places::PlacingOf::place_found))]
    pub fn schedule_place(&self, attr: u32) -> SchedulePlace
        ensures schedule_place { schedule_place_meant result
            ≡ placing_of (stages_of self.now) attr }
    {
        match self.found(attr) {
            Some(schedule_place) => schedule_place,
            None => SchedulePlace {
                stage: self.schedule.stages.len(),
                pass: 0,
                kind: PassKind::TopDown,
                index: 0,
            },
        }
    }

    /// Whether the attribute has an entry.
    #[tactic(auto, using(crate::proofs::places::PlacingOf::entry_listed))]
    pub fn has_entry(&self, attr: u32) -> bool
        ensures listed { result ≡ is_listed (entries (stages_of self.now)) attr }
    {
        self.found(attr).is_some()
    }

    fn found(&self, attr: u32) -> Option<SchedulePlace>
        ensures found { result ≡ entry_of (all_entries self.now) attr }
    {
        let attr = attr as usize;
        if attr < self.places.len() {
            self.places.as_slice()[attr]
        } else {
            None
        }
    }
}

// No place for each of so many attributes.
fn no_places(alloc: Global, attr_count: u32) -> Result<Items<Option<SchedulePlace>>, AllocError>
    ensures none { IfOk result (λ places. places ≡ replicate attr_count None) }
{
    let mut places = Items::new(alloc);
    for _attr in 0..attr_count {
        places.push(None)?;
    }
    Ok(places)
}

// Gives each attribute the place of its entry, up to the first that has one already.
fn fill(places: &mut Items<Option<SchedulePlace>>, entries: &[Entry]) -> Option<VerifyFault>
    requires below { AreBelow (length places.old) (attributes_of entries.now) }
    requires none { places.old ≡ replicate (length places.old) None }
    ensures fault { result ≡ first_twice [] (attributes_of entries.now) }
    ensures places { result ≡ None → HasPlaces entries.now places.new }
{
    for entry in entries {
        let attr = entry.attr as usize;
        if places.as_slice()[attr].is_some() {
            return Some(VerifyFault::Twice { attr: entry.attr });
        }
        places.set(attr, Some(entry.schedule_place));
    }
    None
}
