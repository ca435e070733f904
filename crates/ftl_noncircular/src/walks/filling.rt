//! Rows that walks fill.
ghost use Rattle.std.specs.Prelude.{◌≡◌, ◌⊎◌, ◌<◌, ℕ, true, length};
ghost use Rattle.std.specs.FinSet as set;
ghost use Rattle.lane_rows.specs.Matrix.{entry, Leads};
ghost use Rattle.ftl_noncircular.specs.walks.Spreads.{IsWithinSize, IsLedTo, LeadsOn};

use lane_rows::{BitMatrix, BitRow};

/// Adds to a row what walks lead to from its numbers. What the entries of those that are done lead
/// to is there already.
pub(crate) fn spread(edges: &BitMatrix, row: &mut BitRow, done: BitRow)
    requires row { IsWithinSize edges.now row.old }
    requires ends { (a b : ℕ) → entry edges.now a b ≡ true → b < length edges.now }
    requires done { LeadsOn edges.now done row.old }
    ensures kept { (b : ℕ) → set.contains row.old b ≡ true → set.contains row.new b ≡ true }
    ensures closed { LeadsOn edges.now row.new row.new }
    ensures led { (b : ℕ) → set.contains row.new b ≡ true → IsLedTo edges.now row.old b }
    ensures row { IsWithinSize edges.now row.new }
{
    let mut done = done;
    let _few = done.count();
    while let Some(next) = row.first_missing(&done) {
        done.put(next);
        let _few = done.count();
        row.union_into(edges.row(next));
    }
}
