//! Faults of schedules.

ghost use Rattle.std.specs.Prelude.{◌≡◌, ◌++◌, OnOk, codes};
ghost use Rattle.std.specs.Fmt.{decimal};
ghost use Rattle.ftl_answer.specs.refusals.Names.{attribute_text, dotted, rule_text_at};
ghost use Rattle.ftl_answer.specs.refusals.ScheduleLines.{schedule_line, stuck_line, verify_line};

use crate::refusals::names::{around_attribute, dotted_after, two_rules_at, with_attributes};
use crate::refusals::pieces::{around, named, numbered, text, two_numbers};
use crate::refusals::text::at_byte;
use ftl_checked::Checked;
use ftl_order::VerifyFault;
use ftl_page::Section;
use ftl_schedule::ScheduleFault;
use std::alloc::{AllocError, Global};

/// Adds the line of the first fault of a schedule as it is read.
pub fn write_schedule_fault(out: &mut Vec<u8>, fault: &ScheduleFault) -> Result<(), AllocError>
    ensures line { OnOk result (out.new.items ≡ out.old.items ++ schedule_line fault.now) }
{
    match fault {
        ScheduleFault::Syntax { at } => at_byte(out, Section::Schedule, "syntax", *at),
        ScheduleFault::TooManyPasses { count } => {
            numbered(out, "refused schedule: too many passes: ", *count)
        }
        ScheduleFault::TooManyBeside { stage, count } => too_many_beside(out, *stage, *count),
        ScheduleFault::UnknownAttribute { owner, attr } => {
            dotted_after(
                out,
                "refused schedule: unknown attribute ",
                owner.text(),
                attr.text(),
            )
        }
        ScheduleFault::UnknownHost { name } => {
            named(out, "refused schedule: unknown class ", name.text())
        }
        ScheduleFault::OpenNest { host } => {
            around(
                out,
                "refused schedule: nest ",
                host.text(),
                " is not closed",
            )
        }
        ScheduleFault::NestAttribute { owner, attr } => wrong_side(out, owner.text(), attr.text()),
        ScheduleFault::OutOfMemory => Ok(()),
    }
}

fn wrong_side(out: &mut Vec<u8>, owner: &str, attr: &str) -> Result<(), AllocError>
    ensures line { OnOk result (out.new.items ≡ out.old.items
        ++ (codes "refused schedule: " ++ (dotted owner.now attr.now
        ++ codes " on the wrong side of a nest"))) }
{
    dotted_after(out, "refused schedule: ", owner, attr)?;
    text(out, " on the wrong side of a nest")
}

fn too_many_beside(out: &mut Vec<u8>, stage: u32, count: u32) -> Result<(), AllocError>
    ensures line { OnOk result (out.new.items ≡ out.old.items
        ++ (codes "refused schedule: too many passes in stage " ++ (decimal stage
        ++ (codes ": " ++ decimal count)))) }
{
    two_numbers(
        out,
        "refused schedule: too many passes in stage ",
        stage,
        ": ",
        count,
    )
}

/// Adds the line of the first fault of a schedule of this grammar.
pub fn write_verify_fault(
    alloc: Global,
    out: &mut Vec<u8>,
    checked: &Checked,
    fault: VerifyFault,
) -> Result<(), AllocError>
    ensures line { OnOk result (out.new.items
        ≡ out.old.items ++ verify_line checked.now.grammar fault) }
{
    match fault {
        VerifyFault::Twice { attr } => at_attribute(out, checked, attr, " twice"),
        VerifyFault::Missing { attr } => at_attribute(out, checked, attr, " missing"),
        VerifyFault::Unordered { reader, writer } => {
            unordered(alloc, out, checked, reader, writer)
        }
        VerifyFault::OutOfMemory => Ok(()),
    }
}

/// Adds an attribute and what is wrong with it.
fn at_attribute(
    out: &mut Vec<u8>,
    checked: &Checked,
    attr: u32,
    what: &str,
) -> Result<(), AllocError>
    ensures line { OnOk result (out.new.items ≡ out.old.items
        ++ (codes "refused schedule: " ++ (attribute_text checked.now.grammar attr
        ++ what.now))) }
{
    around_attribute(out, checked, "refused schedule: ", attr, what)
}

fn unordered(
    alloc: Global,
    out: &mut Vec<u8>,
    checked: &Checked,
    reader: u32,
    writer: u32,
) -> Result<(), AllocError>
    ensures line { OnOk result (out.new.items ≡ out.old.items
        ++ (codes "refused schedule: " ++ (rule_text_at checked.now.grammar reader
        ++ (codes " reads " ++ (rule_text_at checked.now.grammar writer
        ++ codes " unordered"))))) }
{
    two_rules_at(
        alloc,
        out,
        checked,
        (reader, writer),
        ("refused schedule: ", " reads ", " unordered"),
    )
}

/// Adds the line of a search for a schedule that is stuck at these attributes.
pub fn write_stuck(out: &mut Vec<u8>, checked: &Checked, attrs: &[u32]) -> Result<(), AllocError>
    ensures line { OnOk result (out.new.items
        ≡ out.old.items ++ stuck_line checked.now.grammar attrs.now) }
{
    with_attributes(out, checked, "refused schedule: stuck", attrs)
}
