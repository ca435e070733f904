//! Whether a writer stands earlier than a reader, by their two places.

ghost use Rattle.std.specs.Prelude.{◌≡◌};
ghost use Rattle.ftl_order.specs.faults.OrderedReads as spec;
ghost use Rattle.ftl_schedule.specs.places.Entries.{schedule_place_meant};
ghost use Rattle.ftl_schedule.specs.places.Standing.{visit_place_meant};
ghost use Rattle.ftl_schedule.specs.stages.Stages.{kind_of};
ghost use Rattle.ftl_nest_check.specs.places.Between.{in_pass_between, ordered_between};
ghost use Rattle.ftl_nest_check.specs.places.Between.{same_visit_between, smaller_key_between};

use ftl_order::{DepRead, Site};
use ftl_schedule::places::SchedulePlace;
use ftl_schedule::{
    PassKind, Standing, from_kid, from_parent, has_earlier_block, is_prev, is_same_block,
    is_same_rule,
};

/// The places of a writer and of a reader in a schedule.
#[derive(Clone, Copy)]
pub(crate) struct Between {
    pub early: SchedulePlace,
    pub late: SchedulePlace,
}

impl Between {
    /// Whether the writer of what is read stands in an earlier stage, or earlier in the same pass.
    pub fn is_ordered(self, read: DepRead, writer: Standing, reader: Standing) -> bool
        ensures ordered { result ≡ ordered_between (schedule_place_meant self.early)
            (schedule_place_meant self.late) read
            (visit_place_meant writer) (visit_place_meant reader) }
    {
        let kind = self.late.kind;
        self.early.stage < self.late.stage
            || (self.is_one_pass() && self.in_pass(kind, read, writer, reader))
    }

    /// Whether both are of one pass of one stage.
    pub fn is_one_pass(self) -> bool
        ensures one { result ≡ spec.is_one_pass (schedule_place_meant self.early)
            (schedule_place_meant self.late) }
    {
        self.early.stage == self.late.stage && self.early.pass == self.late.pass
    }

    /// Whether one pass of this kind has the writer of what is read earlier.
    pub fn in_pass(self, kind: PassKind, read: DepRead, writer: Standing, reader: Standing) -> bool
        ensures in_pass { result ≡ in_pass_between read.site (kind_of kind)
            (schedule_place_meant self.early) (schedule_place_meant self.late) read
            (visit_place_meant writer) (visit_place_meant reader) }
    {
        match read.site {
            Site::Input => true,
            Site::SameVisit => self.in_same_visit(kind, is_prev(read.form), writer, reader),
            Site::Above => from_parent(kind),
            Site::Below => from_kid(kind, is_prev(read.form), read.child.unwrap_or(0), reader),
        }
    }

    fn in_same_visit(self, kind: PassKind, by_prev: bool, x: Standing, y: Standing) -> bool
        ensures in_visit { result ≡ same_visit_between (kind_of kind)
            (schedule_place_meant self.early) (schedule_place_meant self.late) by_prev
            (visit_place_meant x) (visit_place_meant y) }
    {
        match kind {
            PassKind::TopDown | PassKind::BottomUp => {
                self.has_smaller_key(x, y) || (by_prev && is_same_rule(x, y))
            }
            PassKind::InOrder => {
                has_earlier_block(x, y)
                    || (is_same_block(x, y) && (self.has_smaller_key(x, y) || by_prev))
            }
        }
    }

    fn has_smaller_key(self, x: Standing, y: Standing) -> bool
        ensures smaller { result ≡ smaller_key_between (schedule_place_meant self.early)
            (schedule_place_meant self.late) (visit_place_meant x) (visit_place_meant y) }
    {
        self.early.index < self.late.index
            || (self.early.index == self.late.index && x.child < y.child)
    }
}
