//! A law: how many passes a schedule with nests may have, and one more than that.

ghost use Rattle.std.specs.Prelude.{◌≡◌, [], ◌∷◌, None, Some};
ghost use Rattle.ftl_schedule.specs.declared.names.fault.ScheduleFault.TheVariants as fault;
ghost use Rattle.ftl_nest_text.specs.reading.NestLimits.{nest_limit_fault};
ghost use Rattle.ftl_nest_text.specs.reading.WorkedLimits.{inner, outer, so_many, with_nest};
ghost use Rattle.ftl_nest_text.specs.reading.WorkedLimits.{without};

/// A law: at the limits on passes there is no fault, and past them there is one; inner passes count
/// in all, and inner stages have numbers between those of outer ones.
pub fn limits_of_nesting_schedules()
    // one outer pass that nests 2047 stages of one, and one that nests 2048
    ensures passes { nest_limit_fault (outer (with_nest (so_many 2047 (inner 1)) ∷ []) ∷ [])
        ≡ None }
    ensures one_pass_more { nest_limit_fault
        (outer (with_nest (so_many 2048 (inner 1)) ∷ []) ∷ []) ≡ Some (fault.TooManyPasses 2049) }
    // four and five outer passes of a stage
    ensures beside { nest_limit_fault (outer (so_many 4 without) ∷ []) ≡ None }
    ensures one_beside_more { nest_limit_fault (outer (so_many 5 without) ∷ [])
        ≡ Some (fault.TooManyBeside 1 5) }
    // outer passes alone count in an outer stage, also where its four passes nest
    ensures outer_alone { nest_limit_fault
        (outer (so_many 4 (with_nest (inner 4 ∷ []))) ∷ []) ≡ None }
    // stage 1 has two passes: stages 2 and 3 are in the nest of the first, 4 in that of the second,
    // and 5 is the next outer one
    ensures inner_number { nest_limit_fault
        (outer (with_nest (inner 1 ∷ inner 5 ∷ []) ∷ with_nest (inner 1 ∷ []) ∷ [])
        ∷ outer (so_many 5 without) ∷ []) ≡ Some (fault.TooManyBeside 3 5) }
    ensures outer_number { nest_limit_fault
        (outer (with_nest (inner 1 ∷ inner 4 ∷ []) ∷ with_nest (inner 1 ∷ []) ∷ [])
        ∷ outer (so_many 5 without) ∷ []) ≡ Some (fault.TooManyBeside 5 5) }
{}
