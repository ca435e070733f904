//! Faults of edits.

ghost use Rattle.std.specs.Prelude.{◌≡◌, ◌++◌, OnOk};
ghost use Rattle.ftl_answer.specs.refusals.EditLines.{edit_lacks, edit_line};

use crate::refusals::pieces::{around_number, numbered};
use crate::refusals::text::at_byte;
use ftl_edits::EditFault;
use ftl_page::Section;
use std::alloc::AllocError;

/// Adds the line of the first fault of edits.
pub fn write_edit_fault(out: &mut Vec<u8>, fault: EditFault) -> Result<(), AllocError>
    ensures line { OnOk result (out.new.items ≡ out.old.items ++ edit_line fault) }
{
    match fault {
        EditFault::Syntax { at } => at_byte(out, Section::Edits, "syntax", at),
        EditFault::TooMany { count } => numbered(out, "refused edits: too many: ", count),
        EditFault::UnknownNode { edit } => lacking(out, edit, " has no node"),
        EditFault::UnknownInput { edit } => lacking(out, edit, " has no input"),
        EditFault::OutOfMemory => Ok(()),
    }
}

/// Adds an edit, and what its node lacks.
fn lacking(out: &mut Vec<u8>, edit: u32, what: &str) -> Result<(), AllocError>
    ensures line { OnOk result (out.new.items ≡ out.old.items ++ edit_lacks edit what.now) }
{
    around_number(out, "refused edits: edit ", edit, what)
}
