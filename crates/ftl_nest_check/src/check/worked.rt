//! Laws that hold first faults against worked schedules.

ghost use Rattle.ftl_order.specs.declared.faults.fault.VerifyFault.TheVariants as fault;
ghost use Rattle.ftl_nests.specs.WorkedNests.{nested_in_sheet, ph_in_topdown, rh_in_bottomup};
ghost use Rattle.ftl_nests.specs.WorkedNests.{slots_first};
ghost use Rattle.ftl_nests.specs.WorkedRows.{nested_rows};
ghost use Rattle.ftl_nest_check.specs.check.Worked.{HasFault, HasNoFault, two_twice};
ghost use Rattle.ftl_nest_check.specs.check.Worked.{missing_and_unordered, no_cell_height};

/// A law: three schedules with nests have no fault. Of two attributes with two entries the first is
/// the one whose second entry comes first, in the own list of a pass and not in its nest; a missing
/// attribute comes before a pair that is not ordered.
pub fn first_nest_faults()
    ensures nested_rows { HasNoFault nested_rows }
    ensures slots_first { HasNoFault slots_first }
    ensures nested_in_sheet { HasNoFault nested_in_sheet }
    ensures twice { HasFault two_twice (fault.Twice 2) }
    ensures missing { HasFault no_cell_height (fault.Missing 3) }
    ensures missing_first { HasFault missing_and_unordered (fault.Missing 3) }
    ensures rh_in_bottomup { HasFault rh_in_bottomup (fault.Unordered 2 1) }
    ensures ph_in_topdown { HasFault ph_in_topdown (fault.Unordered 1 3) }
{}
