//! Faults of pages.

ghost use Rattle.std.specs.Prelude.{◌≡◌, ◌++◌, OnOk};
ghost use Rattle.ftl_page.specs.declared.sections.fault.PageFault.TheVariants as page;
ghost use Rattle.ftl_answer.specs.refusals.PageLines.{page_line};

use crate::refusals::names::section_name;
use crate::refusals::pieces::{named_number, numbered, text, two};
use ftl_page::{PageFault, Section};
use std::alloc::AllocError;

/// Adds the line of a page's first fault.
pub fn write_page_fault(out: &mut Vec<u8>, fault: &PageFault) -> Result<(), AllocError>
    ensures line { OnOk result (out.new.items ≡ out.old.items ++ page_line fault.now) }
{
    match fault {
        PageFault::NotText => text(out, "refused page: not UTF-8"),
        PageFault::BadVersion => text(out, "refused page: first line is not %page 1"),
        PageFault::UnknownSection { line } => {
            numbered(out, "refused page: unknown section at line ", *line)
        }
        PageFault::SectionTwice { which, line } => section_twice(out, *which, *line),
        PageFault::UnknownShipped { line } => {
            numbered(out, "refused page: unknown grammar at line ", *line)
        }
        PageFault::StrayText { line } => {
            numbered(out, "refused page: stray text at line ", *line)
        }
        PageFault::NoSection { which } => {
            two(out, "refused page: no section ", section_name(*which))
        }
        PageFault::OutOfMemory => Ok(()),
    }
}

fn section_twice(out: &mut Vec<u8>, which: Section, line: u32) -> Result<(), AllocError>
    ensures line { OnOk result (out.new.items
        ≡ out.old.items ++ page_line (page.SectionTwice which line)) }
{
    named_number(
        out,
        "refused page: section ",
        section_name(which),
        " twice at line ",
        line,
    )
}
