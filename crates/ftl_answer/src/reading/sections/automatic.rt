//! The automatic schedule.

ghost use Rattle.std.specs.Prelude.{◌≡◌, IfOk};
ghost use Rattle.ftl_answer.specs.answers.Answer as answer;
ghost use Rattle.ftl_answer.specs.answers.Texts.{automatic_schedule};
ghost use Rattle.ftl_answer.specs.reading.sections.Outcomes.{Ends, IsOutcome};
ghost use Rattle.ftl_answer.specs.refusals.ScheduleLines.{stuck_line};

use crate::reading::sections::decision::{Undecided, refused};
use crate::reading::sections::status::Status;
use crate::write_stuck;
use ftl_checked::Checked;
use ftl_deps::dep_table;
use ftl_nest_check::AcceptedNests;
use ftl_nest_check::check::accepted_plain;
use ftl_scheduler::{FindFault, find_schedule};
use std::alloc::Global;

/// The automatic schedule, or the attributes that it leaves.
pub fn automatic_schedule<'a>(
    alloc: Global,
    checked: &'a Checked,
) -> Result<AcceptedNests<'a>, Undecided>
    ensures outcome { IsOutcome (automatic_schedule checked.now) (λ s. s.schedule) result }
    ensures grammar { IfOk result (λ s. s.checked ≡ checked.now) }
{
    let deps = dep_table(alloc, checked)?;
    match find_schedule(alloc, checked, &deps) {
        Ok(accepted) => Ok(accepted_plain(alloc, checked, &accepted)?),
        Err(FindFault::Stuck { attrs }) => Err(stuck(alloc, checked, attrs.as_slice())),
        Err(FindFault::OutOfMemory) => Err(Undecided::OutOfMemory),
    }
}

fn stuck(alloc: Global, checked: &Checked, attrs: &[u32]) -> Undecided
    ensures ends { Ends (answer.refused 6 (stuck_line checked.now.grammar attrs.now)) result }
{
    let mut line = Vec::new(alloc);
    match write_stuck(&mut line, checked, attrs) {
        Ok(()) => refused(Status::SCHEDULE_REFUSED, line),
        Err(_) => Undecided::OutOfMemory,
    }
}
