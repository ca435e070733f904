//! Schedules that were accepted.

ghost use Rattle.std.specs.Prelude.{◌≡◌};
ghost use Rattle.ftl_deps.specs.reads.Meant.{meant};
ghost use Rattle.ftl_order.specs.faults.FaultLaws.{AreComputed};
ghost use Rattle.ftl_order.specs.orders.Ordered.{IsOrdered};
ghost use Rattle.ftl_order.specs.orders.Schedule.{placing_of};
ghost use Rattle.ftl_schedule.specs.check.AcceptedSchedule.{IsAccepted};
ghost use Rattle.ftl_schedule.specs.places.Entries.{schedule_place_meant};
ghost use Rattle.ftl_schedule.specs.printing.WrittenOf.{AreStagesKnown};
ghost use Rattle.ftl_schedule.specs.stages.PassLimits.{IsWithinPassLimits};
ghost use Rattle.ftl_schedule.specs.stages.Stages.{stages_of};

use crate::places::{Placed, SchedulePlace};
use crate::stages::Schedule;
use ftl_checked::Checked;
use std::marker::Model;

/// A schedule that was accepted for a grammar, with the place of each attribute. Contracts see the
/// grammar and the schedule.
#[derive(Drop)]
pub struct Accepted<'a> {
    checked: &'a Checked,
    placed: Placed,
}

impl<'a> Model for Accepted<'a> {
    ghost use Rattle.std.specs.Coded.{codes};
    ghost use Rattle.ftl_grammar.specs.contracts.syntax.expression.Expr as e;
    ghost use Rattle.ftl_schedule.specs.check.AcceptedSchedule.{AcceptedSchedule, IsAccepted};

    ghost Value = { AcceptedSchedule };

    ghost coded = { Prim.hlevel (codes, e.the_row.coded) };

    ghost view = { λ a. record { checked = a.checked.now; schedule = a.placed } };

    ghost invariant = { λ a. IsAccepted a.checked.now a.placed };
}

impl<'a> Accepted<'a> {
    /// A placed schedule that is ordered.
    pub fn new(checked: &'a Checked, placed: Placed) -> Accepted<'a>
        requires accepted { IsAccepted checked.now placed }
        ensures grammar { result.checked ≡ checked.now }
        ensures schedule { result.schedule ≡ placed }
    {
        Accepted { checked, placed }
    }

    /// The grammar.
    pub fn checked(&self) -> &Checked
        ensures grammar { result.now ≡ self.now.checked }
    {
        self.checked
    }

    /// The schedule, and what was asked of it.
    pub fn schedule(&self) -> &Schedule
        ensures schedule { result.now ≡ self.now.schedule }
        ensures computed { AreComputed (meant self.now.checked) (stages_of self.now.schedule) }
        ensures limits { IsWithinPassLimits (stages_of self.now.schedule) }
        ensures ordered { IsOrdered (meant self.now.checked) (stages_of self.now.schedule) }
        // what its printing asks for
        ensures known { AreStagesKnown self.now.checked.grammar self.now.schedule.stages }
    {
        self.placed.schedule()
    }

    /// The schedule with the places of its attributes.
    pub fn placed(&self) -> &Placed
        ensures schedule { result.now ≡ self.now.schedule }
    {
        &self.placed
    }

    /// Where the attribute stands. An input stands in a stage past the last.
    pub fn schedule_place(&self, attr: u32) -> SchedulePlace
        ensures schedule_place { schedule_place_meant result
            ≡ placing_of (stages_of self.now.schedule) attr }
    {
        self.placed.schedule_place(attr)
    }
}
