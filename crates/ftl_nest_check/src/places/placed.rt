//! Schedules with nests whose entries all differ, with the place of each attribute.

ghost use Rattle.std.specs.Prelude.{◌≡◌, ◌≢◌, ◌<◌, ℕ, None, length, Contains, MatchOption};
ghost use Rattle.ftl_model.specs.layout.Outcome.{Gives};
ghost use Rattle.ftl_order.specs.orders.Schedule.{entries};
ghost use Rattle.ftl_order.specs.declared.faults.fault.VerifyFault.TheVariants.{OutOfMemory};
ghost use Rattle.ftl_schedule.specs.places.Entries.{schedule_place_meant};
ghost use Rattle.ftl_schedule.specs.stages.Stages.{stages_of};
ghost use Rattle.ftl_nests.specs.Nests.{nest_placing_of, nesting_pass, no_pass, outer_schedule};
ghost use Rattle.ftl_nest_check.specs.places.NestPlaced.{host_behind, without_twice};
ghost use Rattle.ftl_nest_check.specs.stages.Nested.{nesting_pass_of, nests_of};

use crate::places::inner::{StageEntries, inner_entries, place_in_stages};
use crate::places::outer::outer_of;
use crate::stages::{NestingPass, NestingSchedule};
use ftl_order::VerifyFault;
use ftl_schedule::places::{Placed, SchedulePlace};
use sqlite_items::Items;
use std::alloc::Global;
use std::marker::Model;

/// A schedule with nests in which no attribute has two entries, with the place of each attribute.
/// Contracts see the schedule.
#[derive(Drop)]
pub struct PlacedNests {
    schedule: NestingSchedule,
    outer: Placed,
    inner: Items<StageEntries>,
}

impl Model for PlacedNests {
    ghost use Rattle.ftl_nest_check.specs.declared.stages.types.NestingSchedule.{NestingSchedule};
    ghost use Rattle.ftl_nest_check.specs.places.NestPlaced.{AreNestPlaces};

    ghost Value = { NestingSchedule };

    ghost view = { λ p. p.schedule };

    ghost invariant = { λ p. AreNestPlaces p.schedule p.outer p.inner };
}

impl PlacedNests {
    /// The places of a schedule of `attr_count` attributes, or the first attribute that has a
    /// second entry. A pass's own list stands before its nest.
    pub fn new(
        alloc: Global,
        attr_count: u32,
        schedule: NestingSchedule,
    ) -> Result<PlacedNests, VerifyFault>
        requires known { (a : ℕ) → Contains (entries (outer_schedule (nests_of schedule))) a
            → a < attr_count }
        ensures exact { Gives OutOfMemory (λ p. p) result (without_twice schedule) }
    {
        let outer = outer_of(alloc, &schedule)?;
        let outer = Placed::new(alloc, attr_count, outer)?;
        let inner = inner_entries(alloc, &schedule)?;
        Ok(PlacedNests {
            schedule,
            outer,
            inner,
        })
    }

    pub fn schedule(&self) -> &NestingSchedule
        ensures schedule { result.now ≡ self.now }
    {
        &self.schedule
    }

    /// The outer schedule: each pass with the attributes of its nest behind its own.
    pub fn outer_placed(&self) -> &Placed
        ensures outer { stages_of result.now ≡ outer_schedule (nests_of self.now) }
    {
        &self.outer
    }

    /// Where the attribute stands in the outer stages. One without an entry stands in a stage past
    /// the last.
    pub fn outer(&self, attr: u32) -> SchedulePlace
        ensures place { schedule_place_meant result
            ≡ (nest_placing_of (nests_of self.now)).outer attr }
    {
        self.outer.schedule_place(attr)
    }

    /// The host class of the nest that the attribute stands in; none where it stands in the own
    /// list of its pass, or has no entry.
    pub fn host(&self, attr: u32) -> Option<u32>
        ensures host { result ≡ (nest_placing_of (nests_of self.now)).host attr }
    {
        self.host_at(self.outer(attr))
    }

    /// Where the attribute stands in its nest.
    pub fn inner(&self, attr: u32) -> SchedulePlace
        requires hosted { (nest_placing_of (nests_of self.now)).host attr ≢ None }
        ensures place { schedule_place_meant result
            ≡ (nest_placing_of (nests_of self.now)).inner attr }
    {
        let place = self.outer(attr);
        let behind = place.index.saturating_sub(self.own_count(place));
        place_in_stages(self.inner.as_slice(), place, behind)
    }

    /// The host class of the nest in which the place lies, behind the own list of its pass.
    fn host_at(&self, place: SchedulePlace) -> Option<u32>
        ensures host { result ≡ host_behind
            (nesting_pass (nests_of self.now) place.stage place.pass) place.index }
    {
        match self.pass(place) {
            Some(pass) => host_behind(pass, place.index),
            None => None,
        }
    }

    /// How many attributes the own list of the pass has.
    fn own_count(&self, place: SchedulePlace) -> usize
        ensures count { result
            ≡ length (nesting_pass (nests_of self.now) place.stage place.pass).attributes }
    {
        match self.pass(place) {
            Some(pass) => pass.attrs.len(),
            None => 0,
        }
    }

    /// The pass at a place; none where the schedule has no such.
    fn pass(&self, place: SchedulePlace) -> Option<&NestingPass>
        ensures pass { MatchOption result
            (nesting_pass (nests_of self.now) place.stage place.pass ≡ no_pass)
            (λ p. nesting_pass (nests_of self.now) place.stage place.pass
            ≡ nesting_pass_of p.now) }
    {
        let stages = self.schedule.stages.as_slice();
        if place.stage >= stages.len() {
            return None;
        }
        let passes = stages[place.stage].passes.as_slice();
        if place.pass < passes.len() {
            Some(&passes[place.pass])
        } else {
            None
        }
    }
}

/// The host class of the nest of a pass, for a place behind its own list.
fn host_behind(pass: &NestingPass, index: usize) -> Option<u32>
    ensures host { result ≡ host_behind (nesting_pass_of pass.now) index }
{
    if index < pass.attrs.len() {
        return None;
    }
    match &pass.nest {
        Some(nest) => Some(nest.host),
        None => None,
    }
}
