//! Laws on what is found by rows.

ghost use Rattle.ftl_scheduler.specs.outcomes.ConstraintLaws.{RowsGiveLists};

/// A law: the largest list by the rows of a kind is the list of that kind.
pub fn rows_give_lists()
    ensures lists { RowsGiveLists }
{}
