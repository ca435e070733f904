//! Laws of canonical texts.

ghost use Rattle.ftl_schedule.specs.declared.syntax.types.WrittenSchedule.{WrittenSchedule};
ghost use Rattle.ftl_schedule.specs.text.ScheduleText.{CanBeWritten, IsTextOf, schedule_text};

/// A law: a scan of the canonical text finds tokens, and these spell the schedule, where each stage
/// has a pass and each name can be said.
pub fn canonical_schedules()
    ensures spells { (s : WrittenSchedule) → CanBeWritten s → IsTextOf (schedule_text s) s }
{}
