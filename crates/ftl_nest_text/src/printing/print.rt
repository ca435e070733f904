//! The printer of schedules with nests.

ghost use Rattle.std.specs.Prelude.{◌≡◌, ◌++◌, map, string_bytes, IfOk, OnOk};
ghost use Rattle.ftl_tokens.specs.writing.Written.{text_of};
ghost use Rattle.ftl_schedule.specs.printing.WrittenOf.{AreStagesKnown, name_of, stage_by_name};
ghost use Rattle.ftl_schedule.specs.syntax.Trees.{written_pass};
ghost use Rattle.ftl_schedule.specs.text.ScheduleText.{pass_written};
ghost use Rattle.ftl_nest_text.specs.text.NestText.{inner_written, nest_written};
ghost use Rattle.ftl_nest_text.specs.text.NestText.{nesting_pass_written, nesting_schedule_text};
ghost use Rattle.ftl_nest_text.specs.text.NestText.{nesting_schedule_written};
ghost use Rattle.ftl_nest_text.specs.text.NestText.{nesting_stage_written};
ghost use Rattle.ftl_nest_text.specs.printing.NestWritten as by;
ghost use Rattle.ftl_nest_check.specs.stages.Known.{AreNestingPassesKnown, AreNestingStagesKnown};
ghost use Rattle.ftl_nest_check.specs.stages.Known.{IsNestKnown, IsNestingPassKnown};
ghost use Rattle.ftl_nest_text.specs.printing.NestWritten.{nest_written_of};

use crate::text::write_nest_open;
use ftl_checked::Checked;
use ftl_nest_check::{Nest, NestingPass, NestingSchedule, NestingStage};
use ftl_schedule::Stage;
use ftl_schedule::printing::write_passes;
use ftl_schedule::text::{write_attribute, write_close, write_open};
use ftl_tokens::{Kind, write_fixed};
use std::alloc::{AllocError, Global};

/// The canonical text of the schedule, its attributes by the names of their owners and their own,
/// its hosts by the names of their classes.
pub fn print_schedule(
    alloc: Global,
    checked: &Checked,
    schedule: &NestingSchedule,
) -> Result<String, AllocError>
    requires known { AreNestingStagesKnown checked.now.grammar schedule.now.stages }
    ensures text { IfOk result (λ text. string_bytes text
        ≡ nesting_schedule_text (nest_written_of checked.now.grammar schedule.now)) }
{
    let mut out = String::new(alloc);
    write_nesting_stages(&mut out, checked, schedule.stages.as_slice())?;
    Ok(out)
}

// Stages with `;` between them.
fn write_nesting_stages(
    out: &mut String,
    checked: &Checked,
    stages: &[NestingStage],
) -> Result<(), AllocError>
    requires known { AreNestingStagesKnown checked.now.grammar stages.now }
    ensures text { OnOk result (string_bytes out.new ≡ string_bytes out.old
        ++ text_of (nesting_schedule_written
        (map (by.nesting_stage_by_name checked.now.grammar) stages.now))) }
{
    for number in 0..stages.len() {
        let is_last = number + 1 == stages.len();
        let gap = if is_last { "\n" } else { " " };
        write_nesting_passes(out, checked, stages[number].passes.as_slice(), gap)?;
        if !is_last {
            write_fixed(out, Kind::Semicolon, "\n")?;
        }
    }
    Ok(())
}

// Passes with `||` between them, and what follows the last.
fn write_nesting_passes(
    out: &mut String,
    checked: &Checked,
    passes: &[NestingPass],
    gap: &str,
) -> Result<(), AllocError>
    requires known { AreNestingPassesKnown checked.now.grammar passes.now }
    ensures text { OnOk result (string_bytes out.new ≡ string_bytes out.old
        ++ text_of (nesting_stage_written gap.now
        (map (by.nesting_pass_by_name checked.now.grammar) passes.now))) }
{
    for number in 0..passes.len() {
        let is_last = number + 1 == passes.len();
        let behind = if is_last { gap } else { " " };
        write_nesting_pass(out, checked, &passes[number], behind)?;
        if !is_last {
            write_fixed(out, Kind::OrOr, " ")?;
        }
    }
    Ok(())
}

// A pass with what it nests, and what follows it.
fn write_nesting_pass(
    out: &mut String,
    checked: &Checked,
    pass: &NestingPass,
    gap: &str,
) -> Result<(), AllocError>
    requires known { IsNestingPassKnown checked.now.grammar pass.now }
    ensures text { OnOk result (string_bytes out.new ≡ string_bytes out.old
        ++ text_of (nesting_pass_written gap.now
        (by.nesting_pass_by_name checked.now.grammar pass.now))) }
{
    match &pass.nest {
        None => write_own(out, checked, pass, gap),
        Some(nest) => {
            write_own(out, checked, pass, " ")?;
            write_nest(out, checked, nest, gap)
        }
    }
}

// A pass without what it nests, and what follows it.
fn write_own(
    out: &mut String,
    checked: &Checked,
    pass: &NestingPass,
    gap: &str,
) -> Result<(), AllocError>
    requires known { IsNestingPassKnown checked.now.grammar pass.now }
    ensures text { OnOk result (string_bytes out.new ≡ string_bytes out.old
        ++ text_of (pass_written gap.now (written_pass pass.now.kind
        (map (name_of checked.now.grammar) pass.now.attrs)))) }
{
    write_open(out, pass.kind)?;
    for attr in pass.attrs.as_slice() {
        write_attribute(out, checked.owner_name(*attr), checked.attr_name(*attr))?;
    }
    write_close(out, gap)
}

// A nest, and what follows it.
fn write_nest(out: &mut String, checked: &Checked, nest: &Nest, gap: &str) -> Result<(), AllocError>
    requires known { IsNestKnown checked.now.grammar nest.now }
    ensures text { OnOk result (string_bytes out.new ≡ string_bytes out.old
        ++ text_of (nest_written gap.now (by.nest_by_name checked.now.grammar nest.now))) }
{
    write_nest_open(out, checked.class_name(nest.host))?;
    write_inner(out, checked, nest.inner.stages.as_slice())?;
    write_close(out, gap)
}

// Inner stages with `;` between them.
fn write_inner(out: &mut String, checked: &Checked, stages: &[Stage]) -> Result<(), AllocError>
    requires known { AreStagesKnown checked.now.grammar stages.now }
    ensures text { OnOk result (string_bytes out.new ≡ string_bytes out.old
        ++ text_of (inner_written (map (stage_by_name checked.now.grammar) stages.now))) }
{
    for number in 0..stages.len() {
        let is_last = number + 1 == stages.len();
        write_passes(out, checked, stages[number].passes.as_slice(), " ")?;
        if !is_last {
            write_fixed(out, Kind::Semicolon, " ")?;
        }
    }
    Ok(())
}
