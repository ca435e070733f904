//! A law: how much a stage and a step may read, and one read more.

ghost use Rattle.std.specs.Prelude.{◌≡◌, None, Some};
ghost use Rattle.ftl_step_value.specs.limits.faults.PlanFaults.{fault_past};
ghost use Rattle.ftl_step_value.specs.limits.faults.StageReads.{or_wide};
ghost use Rattle.ftl_step_value.specs.declared.limits.faults.fault.PlanFault.TheVariants.{TooManyReads};
ghost use Rattle.ftl_model.specs.layout.Limits.{most_stage_reads};

/// A law: counts at the limits on reads are no fault, and past them they are.
pub fn limits_on_reads()
    ensures stage { fault_past most_stage_reads (TooManyReads 1) 67108864 ≡ None }
    ensures one_read_more { fault_past most_stage_reads (TooManyReads 1) 67108865
        ≡ Some (TooManyReads 1 67108865) }
    ensures step { or_wide None 1048576 ≡ None }
    ensures one_more_of_a_step { or_wide None 1048577 ≡ Some 1048577 }
{}
