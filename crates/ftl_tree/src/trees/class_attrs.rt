//! The attributes of a class.
ghost use Rattle.std.specs.Bool.{OnTrue, OnFalse};
ghost use Rattle.ftl_tree.specs.rows.ClassRows.{IsInRun, IsOutsideRun};

use crate::rows::ClassRow;

/// Whether the interface of the class has the attribute.
pub(crate) fn is_shared(row: ClassRow, attr: u32) -> bool
    ensures inside { OnTrue result (IsInRun row.shared_first row.shared_count attr) }
    ensures outside { OnFalse result (IsOutsideRun row.shared_first row.shared_count attr) }
{
    row.shared_first <= attr && attr - row.shared_first < row.shared_count
}
