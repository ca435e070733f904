//! The reader of schedules of a grammar with nests.

ghost use Rattle.std.specs.Prelude.{◌<◌, ◌≤◌, length, IfOk};
ghost use Rattle.ftl_model.specs.layout.Limits.{most_page_bytes};
ghost use Rattle.ftl_model.specs.layout.Outcome.{Gives};
ghost use Rattle.ftl_deps.specs.reads.Meant.{meant};
ghost use Rattle.ftl_order.specs.faults.FaultLaws.{AreComputed};
ghost use Rattle.ftl_schedule.specs.declared.names.fault.ScheduleFault.TheVariants.{OutOfMemory};
ghost use Rattle.ftl_nests.specs.Nests.{outer_schedule};
ghost use Rattle.ftl_nest_check.specs.stages.Known.{AreNestingStagesKnown};
ghost use Rattle.ftl_nest_check.specs.stages.Nested.{AreNestsKept, IsWithinNestLimits, nests_of};
ghost use Rattle.ftl_nest_text.specs.reading.NestLimits.{pass_total, stage_sizes};
ghost use Rattle.ftl_nest_text.specs.reading.NestReading.{NestAnswers, nesting_schedule_of};

use crate::names::nesting_schedule_named;
use crate::reading::limits::{sizes_fault, stage_sizes};
use crate::syntax::{WrittenNestingSchedule, read_nesting_schedule};
use ftl_checked::Checked;
use ftl_meaning::counts_of_spelled_grammars;
use ftl_nest_check::NestingSchedule;
use ftl_schedule::ScheduleFault;
use ftl_schedule::syntax::WrittenFault;
use ftl_tokens::Scanned;
use std::alloc::Global;

/// The schedule that the tokens of a text of at most 64 MiB spell, its attributes and hosts by
/// number, or its first fault.
pub fn read_schedule(
    alloc: Global,
    checked: &Checked,
    scanned: &Scanned,
) -> Result<NestingSchedule, ScheduleFault>
    requires short { length scanned.now.text ≤ most_page_bytes }
    ensures answer { NestAnswers checked.now scanned.now result }
    // what its check asks for
    ensures computed { IfOk result
        (λ s. AreComputed (meant checked.now) (outer_schedule (nests_of s))) }
    ensures limits { IfOk result (λ s. IsWithinNestLimits (nests_of s)) }
    ensures kept { IfOk result (λ s. AreNestsKept (meant checked.now) (nests_of s)) }
    // what its printing asks for
    ensures known { IfOk result (λ s. AreNestingStagesKnown checked.now.grammar s.stages) }
{
    let _lawful = checked.grammar();
    let _tokens = scanned.list();
    counts_of_spelled_grammars();
    match read_nesting_schedule(alloc, scanned) {
        Ok(written) => named(alloc, checked, &written),
        Err(WrittenFault::Syntax { at }) => Err(ScheduleFault::Syntax { at }),
        Err(WrittenFault::OutOfMemory) => Err(ScheduleFault::OutOfMemory),
    }
}

// The schedule by number, or its first fault.
fn named(
    alloc: Global,
    checked: &Checked,
    written: &WrittenNestingSchedule,
) -> Result<NestingSchedule, ScheduleFault>
    requires passes { pass_total (stage_sizes written.now.stages) < 4294967296 }
    requires stages { length (stage_sizes written.now.stages) < 4294967295 }
    ensures exact { Gives OutOfMemory (λ s. s) result
        (nesting_schedule_of checked.now written.now) }
{
    let sizes = stage_sizes(alloc, written.stages.as_slice())?;
    match sizes_fault(sizes.as_slice()) {
        Some(fault) => Err(fault),
        None => nesting_schedule_named(alloc, checked, written),
    }
}
