//! Schedules with nests that were accepted.

ghost use Rattle.std.specs.Prelude.{◌≡◌};
ghost use Rattle.ftl_deps.specs.reads.Meant.{meant};
ghost use Rattle.ftl_schedule.specs.check.AcceptedSchedule.{AcceptedSchedule};
ghost use Rattle.ftl_nests.specs.Nests.{IsNestOrdered};
ghost use Rattle.ftl_nest_check.specs.check.NestAccepted.{IsFlatOf, IsNestAccepted, MayBeVerified};
ghost use Rattle.ftl_nest_check.specs.stages.Known.{AreNestingStagesKnown};
ghost use Rattle.ftl_nest_check.specs.stages.Nested.{nests_of};

use crate::places::PlacedNests;
use crate::stages::NestingSchedule;
use ftl_checked::Checked;
use ftl_schedule::Accepted;
use std::marker::Model;

/// A schedule with nests that was accepted for a grammar, with the place of each attribute, and the
/// one without nests, accepted as well. Contracts see the grammar and the schedule.
#[derive(Drop)]
pub struct AcceptedNests<'a> {
    checked: &'a Checked,
    placed: PlacedNests,
    flat: Accepted<'a>,
}

impl<'a> Model for AcceptedNests<'a> {
    ghost use Rattle.std.specs.Coded.{codes};
    ghost use Rattle.ftl_grammar.specs.contracts.syntax.expression.Expr as e;
    ghost use Rattle.ftl_nest_check.specs.check.NestAccepted.{AcceptedNestingSchedule, IsFlatOf};
    ghost use Rattle.ftl_nest_check.specs.check.NestAccepted.{IsNestAccepted};

    ghost Value = { AcceptedNestingSchedule };

    ghost coded = { Prim.hlevel (codes, e.the_row.coded) };

    ghost view = { λ a. record { checked = a.checked.now; schedule = a.placed } };

    ghost invariant = { λ a. IsNestAccepted a.checked.now a.placed
        × IsFlatOf a.flat a.checked.now a.placed };
}

impl<'a> AcceptedNests<'a> {
    /// The schedule and the one without nests.
    pub(crate) fn new(
        checked: &'a Checked,
        placed: PlacedNests,
        flat: Accepted<'a>,
    ) -> AcceptedNests<'a>
        requires accepted { IsNestAccepted checked.now placed }
        requires flat { IsFlatOf flat checked.now placed }
        ensures grammar { result.checked ≡ checked.now }
        ensures schedule { result.schedule ≡ placed }
    {
        AcceptedNests {
            checked,
            placed,
            flat,
        }
    }

    /// The grammar.
    pub fn checked(&self) -> &Checked
        ensures grammar { result.now ≡ self.now.checked }
    {
        self.checked
    }

    /// The schedule, and what was asked of it.
    pub fn schedule(&self) -> &NestingSchedule
        ensures schedule { result.now ≡ self.now.schedule }
        ensures asked { MayBeVerified (meant self.now.checked) (nests_of self.now.schedule) }
        ensures ordered { IsNestOrdered (meant self.now.checked) (nests_of self.now.schedule) }
        // what its printing asks for
        ensures known { AreNestingStagesKnown self.now.checked.grammar self.now.schedule.stages }
    {
        self.placed.schedule()
    }

    /// The places of the attributes.
    pub fn placed(&self) -> &PlacedNests
        ensures schedule { result.now ≡ self.now.schedule }
    {
        &self.placed
    }

    /// The schedule without nests: the same stages where no pass nests a schedule; else each pass
    /// as the only one of a stage, a nest's before a bottomup pass and behind a topdown one.
    pub fn flat(&self) -> &Accepted<'a>
        ensures flat { IsFlatOf result.now self.now.checked self.now.schedule }
    {
        &self.flat
    }
}
