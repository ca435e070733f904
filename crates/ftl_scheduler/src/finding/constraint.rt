//! What a reader asks of a writer.

ghost use Rattle.std.specs.Prelude.{◌≡◌};
ghost use Rattle.ftl_schedule.specs.stages.Stages.{kind_of};
ghost use Rattle.ftl_schedule.specs.places.Standing.{visit_place_meant};
ghost use Rattle.ftl_scheduler.specs.outcomes.Constraint as constraints;
ghost use Rattle.ftl_scheduler.specs.finding.Entered.{constraint_meant};

use ftl_order::{DepRead, Site};
use ftl_schedule::{
    PassKind, Standing, from_kid, from_parent, has_earlier_block, is_prev, is_same_block,
    is_same_rule,
};

/// What a reader in the next pass asks of a writer that is not done.
#[derive(Clone, Copy, Debug, PartialEq, Eq)]
pub enum Constraint {
    /// It is in the pass.
    Beside,
    /// It stands earlier in the list of the pass.
    Earlier,
    /// Nothing helps but that it is done.
    DoneBefore,
}

/// What the reader asks of the writer of what is read.
pub(crate) fn constraint_of(
    kind: PassKind,
    read: DepRead,
    writer: Standing,
    reader: Standing,
) -> Constraint
    ensures constraint { constraint_meant result
        ≡ constraints.constraint_of (kind_of kind) read
        (visit_place_meant writer) (visit_place_meant reader) }
{
    if writer.attr == reader.attr {
        let smaller = writer.child < reader.child;
        constraint_by(in_pass(smaller, kind, read, writer, reader), false)
    } else {
        constraint_by(
            in_pass(false, kind, read, writer, reader),
            in_pass(true, kind, read, writer, reader),
        )
    }
}

// By whether the pass has it earlier whatever its order, and where it stands first.
fn constraint_by(always: bool, where_first: bool) -> Constraint
    ensures constraint { constraint_meant result ≡ constraints.constraint_by always where_first }
{
    if always {
        Constraint::Beside
    } else if where_first {
        Constraint::Earlier
    } else {
        Constraint::DoneBefore
    }
}

// Whether the pass has the writer x earlier, where its key is smaller or is not.
fn in_pass(smaller: bool, kind: PassKind, read: DepRead, x: Standing, y: Standing) -> bool
    ensures in_pass { result ≡ constraints.in_pass_with read.site (kind_of kind) smaller read
        (visit_place_meant x) (visit_place_meant y) }
{
    match read.site {
        Site::Input => true,
        Site::SameVisit => in_visit(kind, smaller, is_prev(read.form), x, y),
        Site::Above => from_parent(kind),
        Site::Below => from_kid(kind, is_prev(read.form), read.child.unwrap_or(0), y),
    }
}

fn in_visit(kind: PassKind, smaller: bool, by_prev: bool, x: Standing, y: Standing) -> bool
    ensures in_visit { result ≡ constraints.in_visit_with (kind_of kind) smaller by_prev
        (visit_place_meant x) (visit_place_meant y) }
{
    match kind {
        PassKind::TopDown | PassKind::BottomUp => smaller || (by_prev && is_same_rule(x, y)),
        PassKind::InOrder => {
            has_earlier_block(x, y) || (is_same_block(x, y) && (smaller || by_prev))
        }
    }
}
