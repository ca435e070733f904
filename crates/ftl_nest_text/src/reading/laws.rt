//! Laws of what the reader of schedules with nests answers.

ghost use Rattle.std.specs.Prelude.{◌≡◌, ◌≢◌, Result, Err};
ghost use Rattle.ftl_meaning.specs.faults.Checked.{CheckedGrammar};
ghost use Rattle.ftl_tokens.specs.scanner.Tokenized.{Tokenized};
ghost use Rattle.ftl_schedule.specs.declared.names.fault.ScheduleFault.{ScheduleFault};
ghost use Rattle.ftl_schedule.specs.declared.names.fault.ScheduleFault.TheVariants.{OutOfMemory};
ghost use Rattle.ftl_nest_check.specs.declared.stages.types.NestingSchedule.{NestingSchedule};
ghost use Rattle.ftl_nest_text.specs.declared.syntax.types.WrittenNestingSchedule as nesting;
ghost use Rattle.ftl_nest_text.specs.reading.NestReading.{NestAnswers, nesting_schedule_of};

/// A law: each text has one answer by a grammar, want of memory aside: the schedule that its tokens
/// spell, or its one first fault.
pub fn one_nesting_schedule()
    ensures some { (c : CheckedGrammar) (scanned : Tokenized)
        → (answer : Result NestingSchedule ScheduleFault)
        × (answer ≢ Err OutOfMemory) × NestAnswers c scanned answer }
    ensures any_two { (c : CheckedGrammar) (scanned : Tokenized)
        (answer other : Result NestingSchedule ScheduleFault)
        → answer ≢ Err OutOfMemory → other ≢ Err OutOfMemory
        → NestAnswers c scanned answer → NestAnswers c scanned other → answer ≡ other }
{}

/// A law: the first fault of a written schedule is never want of memory, so that where the reader
/// tells that, the answer is open.
pub fn faults_are_of_nesting_schedules()
    ensures memory { (c : CheckedGrammar) (w : nesting.WrittenNestingSchedule)
        → nesting_schedule_of c w ≢ Err OutOfMemory }
{}
