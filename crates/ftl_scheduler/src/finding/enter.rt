//! Constraints that are entered into rows.

ghost use Rattle.std.specs.Prelude.{◌≡◌, ◌<◌, ◌≤◌, length, false, true, IfOk};
ghost use Rattle.lane_rows.specs.Matrix.{entry};
ghost use Rattle.ftl_scheduler.specs.finding.Entered.{AreEmpty, AreOfSize, Grows, IsEntered};
ghost use Rattle.ftl_scheduler.specs.finding.Entered.{constraint_meant};

use crate::finding::constraint::Constraint;
use crate::largest_sets::Constraints;
use lane_rows::BitMatrix;
use std::alloc::{AllocError, Global};

/// Rows of so many attributes without an entry.
pub(crate) fn no_constraints(alloc: Global, size: u32) -> Result<Constraints, AllocError>
    requires few { size ≤ 2048 }
    ensures size { IfOk result (λ n. AreOfSize n size) }
    ensures none { IfOk result AreEmpty }
{
    Ok(Constraints {
        earlier: BitMatrix::new(alloc, size)?,
        followers: BitMatrix::new(alloc, size)?,
        users: BitMatrix::new(alloc, size)?,
        late: BitMatrix::new(alloc, size)?,
    })
}

/// Enters what the reader asks of the writer.
pub(crate) fn enter(
    constraints: &mut Constraints,
    size: u32,
    constraint: Constraint,
    writer: u32,
    reader: u32,
)
    requires sized { AreOfSize constraints.old size }
    requires writer { writer < size }
    requires reader { reader < size }
    ensures sized { AreOfSize constraints.new size }
    ensures entered { IsEntered (constraint_meant constraint) constraints.old constraints.new
        writer reader }
{
    let _ = size;
    let is_earlier = constraint == Constraint::Earlier;
    let is_late = constraint == Constraint::DoneBefore;
    put_where(is_earlier, &mut constraints.earlier, reader, writer);
    put_where(is_earlier, &mut constraints.followers, writer, reader);
    put_where(!is_late, &mut constraints.users, writer, reader);
    put_where(is_late, &mut constraints.late, reader, writer);
}

// Adds an entry where it is told to.
fn put_where(adds: bool, matrix: &mut BitMatrix, from: u32, to: u32)
    requires from { from < length matrix.old }
    requires to { to < length matrix.old }
    ensures size { length matrix.new ≡ length matrix.old }
    ensures grows { Grows adds matrix.old matrix.new from to }
{
    if adds {
        matrix.put(from, to);
    }
}
