//! Laws on the numbers of documents.

ghost use Rattle.ftl_building.specs.building.Calls.{closed, with_number, with_open_kid};
ghost use Rattle.ftl_building.specs.building.Calls.{with_open_list, with_open_node};
ghost use Rattle.ftl_building.specs.building.NumberLaws.{NumbersStayWithin, RowsAreWithin};
ghost use Rattle.ftl_building.specs.building.NumberLaws.{StaysWithin};
ghost use Rattle.ftl_document.specs.syntax.Written.{NameText};

/// A law: where all numbers that are added are within a width, so are those of the document at each
/// time, and those of its rows.
pub fn numbers_stay_within()
    ensures number { NumbersStayWithin with_number }
    ensures node { (name class : NameText) → StaysWithin (with_open_node name class) }
    ensures list { (name : NameText) → StaysWithin (with_open_list name) }
    ensures kid { (class : NameText) → StaysWithin (with_open_kid class) }
    ensures closed { StaysWithin closed }
    ensures rows { RowsAreWithin }
{}
