//! Whether the schedule has the writer of a read earlier than its reader.

ghost use Rattle.std.specs.Prelude.{◌≡◌};
ghost use Rattle.ftl_order.specs.orders.Schedule.{placing_of};
ghost use Rattle.ftl_order.specs.faults.OrderedReads as spec;
ghost use Rattle.ftl_schedule.specs.stages.Stages.{kind_of, stages_of};
ghost use Rattle.ftl_schedule.specs.places.Entries.{schedule_place_meant};
ghost use Rattle.ftl_schedule.specs.places.Standing.{is_ordered_at, visit_place_meant};

use crate::places::placed::Placed;
use crate::places::schedule_place::SchedulePlace;
use crate::stages::PassKind;
use ftl_order::{DepRead, Form, Site};

/// Where a rule stands in the visit of a node.
#[derive(Clone, Copy, Debug, PartialEq, Eq)]
pub struct Standing {
    /// The attribute that the rule is for.
    pub attr: u32,
    /// 0 for the locals, 1 for the kids of a child, 2 for the synthesized attributes.
    pub block: u32,
    /// The child that the rule is for, or 0 where it is for the node itself.
    pub child: u32,
}

impl Placed {
    /// Whether the writer of what is read stands in an earlier stage, or earlier in the same pass.
    pub fn is_ordered(&self, read: DepRead, writer: Standing, reader: Standing) -> bool
        ensures ordered { result ≡ is_ordered_at (placing_of (stages_of self.now)) read
            (visit_place_meant writer) (visit_place_meant reader) }
    {
        let early = self.schedule_place(writer.attr);
        let late = self.schedule_place(reader.attr);
        early.stage < late.stage
            || (is_one_pass(early, late) && self.in_pass(late.kind, read, writer, reader))
    }

    fn in_pass(&self, kind: PassKind, read: DepRead, writer: Standing, reader: Standing) -> bool
        ensures in_pass { result ≡ spec.in_pass_by read.site (kind_of kind)
            (placing_of (stages_of self.now)) read
            (visit_place_meant writer) (visit_place_meant reader) }
    {
        match read.site {
            Site::Input => true,
            Site::SameVisit => self.in_same_visit(kind, is_prev(read.form), writer, reader),
            Site::Above => from_parent(kind),
            Site::Below => from_kid(kind, is_prev(read.form), read.child.unwrap_or(0), reader),
        }
    }

    fn in_same_visit(&self, kind: PassKind, by_prev: bool, x: Standing, y: Standing) -> bool
        ensures in_visit { result ≡ spec.in_same_visit (kind_of kind)
            (placing_of (stages_of self.now)) by_prev (visit_place_meant x) (visit_place_meant y) }
    {
        match kind {
            PassKind::TopDown | PassKind::BottomUp => {
                self.has_smaller_key(x, y) || (by_prev && is_same_rule(x, y))
            }
            PassKind::InOrder => {
                has_earlier_block(x, y)
                    || (is_same_block(x, y) && (self.has_smaller_key(x, y) || by_prev))
            }
        }
    }

    fn has_smaller_key(&self, x: Standing, y: Standing) -> bool
        ensures smaller { result ≡ spec.has_smaller_key (placing_of (stages_of self.now))
            (visit_place_meant x) (visit_place_meant y) }
    {
        let early = self.schedule_place(x.attr);
        let late = self.schedule_place(y.attr);
        early.index < late.index || (early.index == late.index && x.child < y.child)
    }
}

fn is_one_pass(x: SchedulePlace, y: SchedulePlace) -> bool
    ensures one { result ≡ spec.is_one_pass (schedule_place_meant x) (schedule_place_meant y) }
{
    x.stage == y.stage && x.pass == y.pass
}

/// Whether two rules are one: they are for one attribute, in one child.
pub fn is_same_rule(x: Standing, y: Standing) -> bool
    ensures same { result ≡ spec.is_same_rule (visit_place_meant x) (visit_place_meant y) }
{
    x.attr == y.attr && x.child == y.child
}

/// Whether the block of the first comes before that of the second in the visit.
pub fn has_earlier_block(x: Standing, y: Standing) -> bool
    ensures earlier { result ≡ spec.has_earlier_block (visit_place_meant x) (visit_place_meant y) }
{
    x.block < y.block || (x.block == y.block && x.child < y.child)
}

/// Whether the two stand in one block.
pub fn is_same_block(x: Standing, y: Standing) -> bool
    ensures same { result ≡ spec.is_same_block (visit_place_meant x) (visit_place_meant y) }
{
    x.block == y.block && x.child == y.child
}

/// Whether the value of the kid before is read.
pub fn is_prev(form: Form) -> bool
    ensures prev { result ≡ spec.is_prev form }
{
    match form {
        Form::Prev => true,
        Form::Plain | Form::This | Form::Last | Form::Each => false,
    }
}

/// Whether a pass of this kind has what is read of the parent earlier.
pub fn from_parent(kind: PassKind) -> bool
    ensures above { result ≡ spec.from_parent (kind_of kind) }
{
    match kind {
        PassKind::BottomUp => false,
        PassKind::TopDown | PassKind::InOrder => true,
    }
}

/// Whether a pass of this kind has what is read of the kids in this child earlier.
pub fn from_kid(kind: PassKind, by_prev: bool, child: u32, reader: Standing) -> bool
    ensures below { result ≡ spec.from_kid (kind_of kind) by_prev child (visit_place_meant reader) }
{
    match kind {
        PassKind::TopDown => false,
        PassKind::BottomUp => true,
        PassKind::InOrder => {
            reader.block == 2 || (reader.block == 1 && (child < reader.child || by_prev))
        }
    }
}
