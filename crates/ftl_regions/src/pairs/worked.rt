//! Laws that hold the table of ordered reads with nests against worked schedules.

ghost use Rattle.ftl_nests.specs.WorkedNests.{nested_in_sheet, ph_in_topdown, rh_in_bottomup};
ghost use Rattle.ftl_nests.specs.WorkedNests.{slots_first};
ghost use Rattle.ftl_nests.specs.WorkedRows.{nested_rows};
ghost use Rattle.ftl_regions.specs.pairs.Worked.{RefusesFirst, RefusesNone};

/// A law: of three schedules with nests no pair is refused. Where a cell's `rh` stands in the nest
/// of the bottomup pass of its row's height, that pair is the first; and where the cells' `ph`
/// stand in the nest of a topdown pass, that of the row's height, which reads them.
pub fn first_refused_pairs()
    ensures nested_rows { RefusesNone nested_rows }
    ensures slots_first { RefusesNone slots_first }
    ensures nested_in_sheet { RefusesNone nested_in_sheet }
    ensures rh_in_bottomup { RefusesFirst rh_in_bottomup 2 1 }
    ensures ph_in_topdown { RefusesFirst ph_in_topdown 1 3 }
{}
