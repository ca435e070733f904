//! The attributes that rules compute.

ghost use Rattle.ftl_deps.specs.reads.Meant.{meant};
ghost use Rattle.ftl_scheduler.specs.outcomes.ConstraintRows.{HasComputed};

use ftl_checked::Checked;
use ftl_schedule::{attribute_count, is_input};
use lane_rows::BitRow;

/// The computed attributes.
pub(crate) fn computed_row(checked: &Checked) -> BitRow
    ensures computed { HasComputed (meant checked.now) result }
{
    let _ = checked.grammar();
    let mut row = BitRow::empty();
    for attr in 0..attribute_count(checked) {
        if !is_input(checked, attr) {
            row.put(attr);
        }
    }
    row
}
