//! The reader of schedules of a grammar.

ghost use Rattle.std.specs.Prelude.{◌<◌, ◌≤◌, length, IfOk};
ghost use Rattle.ftl_model.specs.layout.Limits.{most_page_bytes};
ghost use Rattle.ftl_deps.specs.reads.Meant.{meant};
ghost use Rattle.ftl_model.specs.layout.Outcome.{Gives};
ghost use Rattle.ftl_order.specs.faults.FaultLaws.{AreComputed};
ghost use Rattle.ftl_schedule.specs.declared.names.fault.ScheduleFault.TheVariants.{OutOfMemory};
ghost use Rattle.ftl_schedule.specs.printing.WrittenOf.{AreStagesKnown};
ghost use Rattle.ftl_schedule.specs.reading.Limits.{pass_count};
ghost use Rattle.ftl_schedule.specs.reading.Read.{Answers, schedule_of};
ghost use Rattle.ftl_schedule.specs.stages.PassLimits.{IsWithinPassLimits};
ghost use Rattle.ftl_schedule.specs.stages.Stages.{stages_of};

use crate::names::{ScheduleFault, schedule_named};
use crate::reading::limits::limit_fault;
use crate::stages::Schedule;
use crate::syntax::{WrittenFault, WrittenSchedule, read_written_schedule};
use ftl_checked::Checked;
use ftl_meaning::counts_of_spelled_grammars;
use ftl_tokens::Scanned;
use std::alloc::Global;

/// The schedule that the tokens of a text of at most 64 MiB spell, its attributes by number, or its
/// first fault.
pub fn read_schedule(
    alloc: Global,
    checked: &Checked,
    scanned: &Scanned,
) -> Result<Schedule, ScheduleFault>
    requires short { length scanned.now.text ≤ most_page_bytes }
    ensures answer { Answers checked.now.grammar scanned.now result }
    // what its check asks for
    ensures computed { IfOk result (λ s. AreComputed (meant checked.now) (stages_of s)) }
    ensures limits { IfOk result (λ s. IsWithinPassLimits (stages_of s)) }
    // what its printing asks for
    ensures known { IfOk result (λ s. AreStagesKnown checked.now.grammar s.stages) }
{
    let _tokens = scanned.list();
    counts_of_spelled_grammars();
    match read_written_schedule(alloc, scanned) {
        Ok(written) => named(alloc, checked, &written),
        Err(WrittenFault::Syntax { at }) => Err(ScheduleFault::Syntax { at }),
        Err(WrittenFault::OutOfMemory) => Err(ScheduleFault::OutOfMemory),
    }
}

// The schedule by number, or its first fault.
fn named(
    alloc: Global,
    checked: &Checked,
    written: &WrittenSchedule,
) -> Result<Schedule, ScheduleFault>
    requires passes { pass_count written.now.stages < 4294967296 }
    requires stages { length written.now.stages < 4294967295 }
    ensures exact { Gives OutOfMemory (λ s. s) result
        (schedule_of checked.now.grammar written.now) }
{
    match limit_fault(written.stages.as_slice()) {
        Some(fault) => Err(fault),
        None => schedule_named(alloc, checked, written),
    }
}
