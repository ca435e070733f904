//! A law: how many passes a schedule may have, and one more than that.

ghost use Rattle.std.specs.Prelude.{◌≡◌, [], ◌∷◌, None, Some, replicate};
ghost use Rattle.ftl_model.specs.layout.Limits.{most_passes, most_stage_passes};
ghost use Rattle.ftl_schedule.specs.declared.names.fault.ScheduleFault.TheVariants as fault;
ghost use Rattle.ftl_schedule.specs.declared.syntax.kind.PassKind.TheVariants.{TopDown};
ghost use Rattle.ftl_schedule.specs.reading.Limits.{limit_fault};
ghost use Rattle.ftl_schedule.specs.syntax.Trees.{written_pass, written_stage};

/// A law: at the limits on passes there is no fault, and past them there is one.
pub fn limits_of_schedules()
    ensures passes { limit_fault (replicate most_passes
        (written_stage (written_pass TopDown [] ∷ []))) ≡ None }
    ensures one_pass_more { limit_fault (replicate 2049
        (written_stage (written_pass TopDown [] ∷ []))) ≡ Some (fault.TooManyPasses 2049) }
    ensures beside { limit_fault (written_stage (replicate most_stage_passes
        (written_pass TopDown [])) ∷ []) ≡ None }
    ensures one_beside_more { limit_fault (written_stage (replicate 5 (written_pass TopDown []))
        ∷ []) ≡ Some (fault.TooManyBeside 1 5) }
{}
