//! Whether a schedule with nests has the writer of a read earlier than its reader.

ghost use Rattle.std.specs.Prelude.{◌≡◌, ◌≢◌, None};
ghost use Rattle.ftl_schedule.specs.places.Entries.{schedule_place_meant};
ghost use Rattle.ftl_schedule.specs.places.Standing.{is_ordered_at, visit_place_meant};
ghost use Rattle.ftl_schedule.specs.stages.Stages.{kind_of};
ghost use Rattle.ftl_nests.specs.Nests.{nest_placing_of};
ghost use Rattle.ftl_regions.specs.pairs.NestReads as spec;
ghost use Rattle.ftl_regions.specs.pairs.NestReads.{TellsPairs, is_nest_ordered};
ghost use Rattle.ftl_nest_check.specs.stages.Nested.{nests_of};

use crate::places::between::Between;
use crate::places::placed::PlacedNests;
use ftl_order::DepRead;
use ftl_schedule::{PassKind, Standing};

impl PlacedNests {
    /// Whether the writer of what is read stands in an earlier outer stage, or the same outer pass
    /// has it earlier.
    pub fn is_ordered(&self, read: DepRead, writer: Standing, reader: Standing) -> bool
        ensures told { result ≡ is_nest_ordered (nest_placing_of (nests_of self.now)) read
            (visit_place_meant writer) (visit_place_meant reader) }
        ensures pairs { TellsPairs (nest_placing_of (nests_of self.now)) read
            (visit_place_meant writer) (visit_place_meant reader) result }
    {
        self.is_earlier(read, writer, reader)
    }

    fn is_earlier(&self, read: DepRead, writer: Standing, reader: Standing) -> bool
        ensures told { result ≡ is_nest_ordered (nest_placing_of (nests_of self.now)) read
            (visit_place_meant writer) (visit_place_meant reader) }
    {
        let outer = Between {
            early: self.outer(writer.attr),
            late: self.outer(reader.attr),
        };
        outer.early.stage < outer.late.stage
            || (outer.is_one_pass() && self.in_nests(outer, read, writer, reader))
    }

    /// Whether one outer pass has the writer earlier.
    #[tactic(auto, using(crate::proofs::places::BetweenPlaces::between_steps))]
    fn in_nests(&self, outer: Between, read: DepRead, writer: Standing, reader: Standing) -> bool
        requires early { schedule_place_meant outer.early
            ≡ (nest_placing_of (nests_of self.now)).outer writer.attr }
        requires late { schedule_place_meant outer.late
            ≡ (nest_placing_of (nests_of self.now)).outer reader.attr }
        ensures in_nests { result ≡ spec.in_nests
            ((nest_placing_of (nests_of self.now)).host writer.attr)
            ((nest_placing_of (nests_of self.now)).host reader.attr)
            (kind_of outer.late.kind) (nest_placing_of (nests_of self.now)) read
            (visit_place_meant writer) (visit_place_meant reader) }
    {
        let kind = outer.late.kind;
        match (self.host(writer.attr), self.host(reader.attr)) {
            (None, None) => outer.in_pass(kind, read, writer, reader),
            (Some(_), Some(_)) => self.in_one_nest(read, writer, reader),
            (None, Some(_)) => is_topdown(kind),
            (Some(_), None) => is_bottomup(kind),
        }
    }

    /// Whether the nest of both has the writer earlier.
    #[tactic(auto, using(crate::proofs::places::BetweenPlaces::between_steps))]
    fn in_one_nest(&self, read: DepRead, writer: Standing, reader: Standing) -> bool
        requires writer { (nest_placing_of (nests_of self.now)).host writer.attr ≢ None }
        requires reader { (nest_placing_of (nests_of self.now)).host reader.attr ≢ None }
        ensures ordered { result ≡ is_ordered_at (nest_placing_of (nests_of self.now)).inner read
            (visit_place_meant writer) (visit_place_meant reader) }
    {
        let inner = Between {
            early: self.inner(writer.attr),
            late: self.inner(reader.attr),
        };
        inner.is_ordered(read, writer, reader)
    }
}

fn is_topdown(kind: PassKind) -> bool
    ensures kind { result ≡ spec.is_topdown (kind_of kind) }
{
    match kind {
        PassKind::TopDown => true,
        PassKind::BottomUp | PassKind::InOrder => false,
    }
}

fn is_bottomup(kind: PassKind) -> bool
    ensures kind { result ≡ spec.is_bottomup (kind_of kind) }
{
    match kind {
        PassKind::BottomUp => true,
        PassKind::TopDown | PassKind::InOrder => false,
    }
}
