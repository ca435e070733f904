//! Laws of canonical texts.

ghost use Rattle.ftl_nest_text.specs.declared.syntax.types.WrittenNestingSchedule as nesting;
ghost use Rattle.ftl_nest_text.specs.text.NestText.{CanBeNestWritten, IsNestTextOf};
ghost use Rattle.ftl_nest_text.specs.text.NestText.{nesting_schedule_text};

/// A law: a scan of the canonical text finds tokens, and these spell the schedule, where each stage
/// and each inner stage has a pass, each name can be said and no inorder pass has a nest.
pub fn canonical_nesting_schedules()
    ensures spells { (s : nesting.WrittenNestingSchedule) → CanBeNestWritten s
        → IsNestTextOf (nesting_schedule_text s) s }
{}
