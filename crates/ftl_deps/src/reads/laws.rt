//! Laws on the table.

ghost use Rattle.ftl_deps.specs.reads.DepRows.{RowsAreOfRules, WritersAreFirst};

/// A law: the table has for each rule of a grammar its reads, and for each of them the first rule
/// that writes what is read.
pub fn rows_are_of_rules()
    ensures reads { RowsAreOfRules }
    ensures writers { WritersAreFirst }
{}
