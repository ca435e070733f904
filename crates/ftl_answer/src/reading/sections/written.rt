//! The schedule of a text.

ghost use Rattle.std.specs.Prelude.{◌≡◌, ◌≤◌, length, Some, IfOk};
ghost use Rattle.std.specs.Prelude.{string_bytes, string_len};
ghost use Rattle.ftl_model.specs.layout.Limits.{most_page_bytes};
ghost use Rattle.ftl_answer.specs.answers.Answer as answer;
ghost use Rattle.ftl_answer.specs.answers.Stages.{Then};
ghost use Rattle.ftl_answer.specs.answers.Texts.{ordered_schedule, spelled_schedule};
ghost use Rattle.ftl_answer.specs.answers.Texts as texts;
ghost use Rattle.ftl_answer.specs.reading.sections.Outcomes.{Ends, IsOutcome};
ghost use Rattle.ftl_answer.specs.reading.sections.RefusalOf.{IsRefusalOf};
ghost use Rattle.ftl_deps.specs.reads.Meant.{meant};
ghost use Rattle.ftl_answer.specs.refusals.ScheduleLines.{schedule_line, verify_line};
ghost use Rattle.ftl_nest_check.specs.check.NestAccepted.{MayBeVerified};
ghost use Rattle.ftl_nest_check.specs.stages.Nested.{nests_of};
ghost use Rattle.ftl_schedule.specs.declared.names.fault.ScheduleFault.TheVariants as faults;

use crate::reading::sections::decision::{Undecided, refused};
use crate::reading::sections::read::section_tokens;
use crate::reading::sections::status::Status;
use crate::{write_schedule_fault, write_verify_fault};
use ftl_checked::Checked;
use ftl_deps::dep_table;
use ftl_nest_check::{AcceptedNests, NestingSchedule, verify_nests};
use ftl_nest_text::read_schedule;
use ftl_page::Section;
use ftl_schedule::{ScheduleFault, VerifyFault};
use ftl_tokens::Scanned;
use std::alloc::Global;

/// The schedule that the text spells, verified.
pub fn written_schedule<'a>(
    alloc: Global,
    checked: &'a Checked,
    text: String,
) -> Result<AcceptedNests<'a>, Undecided>
    requires short { string_len text ≤ most_page_bytes }
    ensures outcome { IsOutcome (texts.schedule checked.now (Some (string_bytes text)))
        (λ s. s.schedule) result }
    ensures grammar { IfOk result (λ s. s.checked ≡ checked.now) }
{
    match section_tokens(alloc, Section::Schedule, text) {
        Ok(scanned) => schedule_of_tokens(alloc, checked, &scanned),
        Err(end) => Err(end),
    }
}

/// The schedule that the tokens spell, verified.
#[tactic(auto, using(crate::proofs::reading::sections::Ways::second_steps))]
fn schedule_of_tokens<'a>(
    alloc: Global,
    checked: &'a Checked,
    scanned: &Scanned,
) -> Result<AcceptedNests<'a>, Undecided>
    requires short { length scanned.now.text ≤ most_page_bytes }
    ensures outcome { IsOutcome (Then (spelled_schedule checked.now scanned.now)
        (ordered_schedule checked.now)) (λ s. s.schedule) result }
    ensures grammar { IfOk result (λ s. s.checked ≡ checked.now) }
{
    match read_schedule(alloc, checked, scanned) {
        Ok(schedule) => verified(alloc, checked, schedule),
        Err(fault) => Err(schedule_refused(alloc, &fault)),
    }
}

/// The schedule, where it is ordered.
#[tactic(auto, using(crate::proofs::reading::sections::ScheduleEnds::schedule_steps))]
fn verified<'a>(
    alloc: Global,
    checked: &'a Checked,
    schedule: NestingSchedule,
) -> Result<AcceptedNests<'a>, Undecided>
    requires may { MayBeVerified (meant checked.now) (nests_of schedule) }
    ensures outcome { IsOutcome (ordered_schedule checked.now schedule) (λ s. s.schedule) result }
    ensures grammar { IfOk result (λ s. s.checked ≡ checked.now) }
{
    let deps = dep_table(alloc, checked)?;
    match verify_nests(alloc, checked, &deps, schedule) {
        Ok(accepted) => Ok(accepted),
        Err(VerifyFault::OutOfMemory) => Err(Undecided::OutOfMemory),
        Err(fault) => Err(verify_refused(alloc, checked, fault)),
    }
}

/// The end with the line of a schedule that was not read.
pub(crate) fn schedule_refused(alloc: Global, fault: &ScheduleFault) -> Undecided
    ensures ends { IsRefusalOf faults.OutOfMemory (λ f. answer.refused 6 (schedule_line f))
        fault.now result }
{
    if let ScheduleFault::OutOfMemory = fault {
        return Undecided::OutOfMemory;
    }
    let mut line = Vec::new(alloc);
    match write_schedule_fault(&mut line, fault) {
        Ok(()) => refused(Status::SCHEDULE_REFUSED, line),
        Err(_) => Undecided::OutOfMemory,
    }
}

/// The end with the line of a schedule that is not accepted.
pub(crate) fn verify_refused(alloc: Global, checked: &Checked, fault: VerifyFault) -> Undecided
    ensures ends { Ends (answer.refused 6 (verify_line checked.now.grammar fault)) result }
{
    let mut line = Vec::new(alloc);
    match write_verify_fault(alloc, &mut line, checked, fault) {
        Ok(()) => refused(Status::SCHEDULE_REFUSED, line),
        Err(_) => Undecided::OutOfMemory,
    }
}
