//! Laws of what the reader of schedules answers.

ghost use Rattle.std.specs.Prelude.{◌≡◌, ◌≢◌, Result, Err};
ghost use Rattle.ftl_grammar.specs.declared.syntax.rules.Grammar.{Grammar};
ghost use Rattle.ftl_tokens.specs.scanner.Tokenized.{Tokenized};
ghost use Rattle.ftl_schedule.specs.declared.names.fault.ScheduleFault.{ScheduleFault};
ghost use Rattle.ftl_schedule.specs.declared.names.fault.ScheduleFault.TheVariants.{OutOfMemory};
ghost use Rattle.ftl_schedule.specs.declared.stages.types.Schedule.{Schedule};
ghost use Rattle.ftl_schedule.specs.declared.syntax.types.WrittenSchedule.{WrittenSchedule};
ghost use Rattle.ftl_schedule.specs.reading.Read.{Answers, schedule_of};

/// A law: each text has one answer by a grammar, want of memory aside: the schedule that its tokens
/// spell, or its one first fault.
pub fn one_schedule()
    ensures some { (g : Grammar) (scanned : Tokenized)
        → (answer : Result Schedule ScheduleFault)
        × (answer ≢ Err OutOfMemory) × Answers g scanned answer }
    ensures any_two { (g : Grammar) (scanned : Tokenized)
        (answer other : Result Schedule ScheduleFault)
        → answer ≢ Err OutOfMemory → other ≢ Err OutOfMemory
        → Answers g scanned answer → Answers g scanned other → answer ≡ other }
{}

/// A law: the first fault of a written schedule is never want of memory, so that where the reader
/// tells that, the answer is open.
pub fn faults_are_of_schedules()
    ensures memory { (g : Grammar) (w : WrittenSchedule) → schedule_of g w ≢ Err OutOfMemory }
{}
