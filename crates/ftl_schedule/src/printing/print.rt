//! The printer of schedules whose attributes are numbers.

ghost use Rattle.std.specs.Prelude.{◌≡◌, ◌++◌, map, string_bytes, IfOk, OnOk};
ghost use Rattle.ftl_schedule.specs.printing.WrittenOf.{ArePassesKnown, AreStagesKnown};
ghost use Rattle.ftl_schedule.specs.printing.WrittenOf.{IsPassKnown, pass_by_name, stage_by_name};
ghost use Rattle.ftl_schedule.specs.printing.WrittenOf.{written_of};
ghost use Rattle.ftl_schedule.specs.text.ScheduleText.{pass_written, schedule_text};
ghost use Rattle.ftl_schedule.specs.text.ScheduleText.{schedule_written, stage_written};
ghost use Rattle.ftl_tokens.specs.writing.Written.{text_of};

use crate::stages::{Pass, Schedule, Stage};
use crate::text::{write_attribute, write_close, write_open};
use ftl_checked::Checked;
use ftl_tokens::{Kind, write_fixed};
use std::alloc::{AllocError, Global};

/// The canonical text of the schedule, its attributes by the names of their owners and their own.
pub fn print_schedule(
    alloc: Global,
    checked: &Checked,
    schedule: &Schedule,
) -> Result<String, AllocError>
    requires known { AreStagesKnown checked.now.grammar schedule.now.stages }
    ensures text { IfOk result (λ text. string_bytes text
        ≡ schedule_text (written_of checked.now.grammar schedule.now)) }
{
    let mut out = String::new(alloc);
    write_stages(&mut out, checked, schedule.stages.as_slice())?;
    Ok(out)
}

// Stages with `;` between them.
fn write_stages(out: &mut String, checked: &Checked, stages: &[Stage]) -> Result<(), AllocError>
    requires known { AreStagesKnown checked.now.grammar stages.now }
    ensures text { OnOk result (string_bytes out.new ≡ string_bytes out.old
        ++ text_of (schedule_written (map (stage_by_name checked.now.grammar) stages.now))) }
{
    for number in 0..stages.len() {
        let is_last = number + 1 == stages.len();
        let gap = if is_last { "\n" } else { " " };
        write_passes(out, checked, stages[number].passes.as_slice(), gap)?;
        if !is_last {
            write_fixed(out, Kind::Semicolon, "\n")?;
        }
    }
    Ok(())
}

/// Passes with `||` between them, and what follows the last.
pub fn write_passes(
    out: &mut String,
    checked: &Checked,
    passes: &[Pass],
    gap: &str,
) -> Result<(), AllocError>
    requires known { ArePassesKnown checked.now.grammar passes.now }
    ensures text { OnOk result (string_bytes out.new ≡ string_bytes out.old
        ++ text_of (stage_written gap.now (map (pass_by_name checked.now.grammar) passes.now))) }
{
    for number in 0..passes.len() {
        let is_last = number + 1 == passes.len();
        let behind = if is_last { gap } else { " " };
        write_pass(out, checked, &passes[number], behind)?;
        if !is_last {
            write_fixed(out, Kind::OrOr, " ")?;
        }
    }
    Ok(())
}

/// A pass, and what follows it.
pub fn write_pass(
    out: &mut String,
    checked: &Checked,
    pass: &Pass,
    gap: &str,
) -> Result<(), AllocError>
    requires known { IsPassKnown checked.now.grammar pass.now }
    ensures text { OnOk result (string_bytes out.new ≡ string_bytes out.old
        ++ text_of (pass_written gap.now (pass_by_name checked.now.grammar pass.now))) }
{
    write_open(out, pass.kind)?;
    for attr in pass.attrs.as_slice() {
        write_attribute(out, checked.owner_name(*attr), checked.attr_name(*attr))?;
    }
    write_close(out, gap)
}
