//! Schedules whose passes may nest others: the canonical text, and that of the schedule without
//! nests, or the line that refuses the schedule.

ghost use Rattle.std.specs.Prelude.{◌≤◌, length};
ghost use Rattle.ftl_deps.specs.reads.Meant.{meant};
ghost use Rattle.ftl_model.specs.layout.Limits.{most_page_bytes};
ghost use Rattle.ftl_nest_check.specs.check.NestAccepted.{MayBeVerified};
ghost use Rattle.ftl_nest_check.specs.stages.Nested.{nests_of};

use crate::documents::write_line;
use ftl_answer::{write_schedule_fault, write_verify_fault};
use ftl_checked::Checked;
use ftl_deps::dep_table;
use ftl_nest_check::{AcceptedNests, NestingSchedule, verify_nests};
use ftl_nest_text::{print_schedule, read_schedule};
use ftl_schedule::{ScheduleFault, VerifyFault};
use ftl_tokens::Scanned;
use std::alloc::{AllocError, Global};
use std::fmt::Write;

/// What is answered of the schedule that the tokens spell.
pub(crate) fn write_nests(
    out: &mut String,
    alloc: Global,
    checked: &Checked,
    scanned: &Scanned,
) -> Result<(), AllocError>
    requires short { length scanned.now.text ≤ most_page_bytes }
{
    match read_schedule(alloc, checked, scanned) {
        Ok(schedule) => {
            let text = print_schedule(alloc, checked, &schedule)?;
            write!(out, "<{}>\n", text.as_str())?;
            write_verdict(out, alloc, checked, schedule)
        }
        Err(ScheduleFault::OutOfMemory) => Err(AllocError),
        Err(fault) => {
            let mut line = Vec::new(alloc);
            write_schedule_fault(&mut line, &fault)?;
            write_line(out, line.as_slice())
        }
    }
}

fn write_verdict(
    out: &mut String,
    alloc: Global,
    checked: &Checked,
    schedule: NestingSchedule,
) -> Result<(), AllocError>
    requires may { MayBeVerified (meant checked.now) (nests_of schedule) }
{
    let deps = dep_table(alloc, checked)?;
    match verify_nests(alloc, checked, &deps, schedule) {
        Ok(accepted) => write_flat(out, alloc, &accepted),
        Err(VerifyFault::OutOfMemory) => Err(AllocError),
        Err(fault) => {
            let mut line = Vec::new(alloc);
            write_verify_fault(alloc, &mut line, checked, fault)?;
            write_line(out, line.as_slice())
        }
    }
}

fn write_flat(
    out: &mut String,
    alloc: Global,
    accepted: &AcceptedNests<'_>,
) -> Result<(), AllocError> {
    let flat = accepted.flat();
    let text = ftl_schedule::print_schedule(alloc, flat.checked(), flat.schedule())?;
    write!(out, "flat <{}>\n", text.as_str())
}
