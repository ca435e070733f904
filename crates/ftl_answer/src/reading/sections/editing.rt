//! The edits of a text.

ghost use Rattle.std.specs.Prelude.{◌≡◌, ◌≤◌, string_bytes, string_len, IfOk};
ghost use Rattle.ftl_model.specs.layout.Limits.{most_page_bytes};
ghost use Rattle.ftl_answer.specs.answers.Answer as answer;
ghost use Rattle.ftl_answer.specs.answers.Texts.{edits, spelled_edits};
ghost use Rattle.ftl_answer.specs.refusals.EditLines.{edit_line};
ghost use Rattle.ftl_base.specs.Widths.{greatest_of_width};
ghost use Rattle.ftl_edits.specs.declared.meaning.fault.EditFault.TheVariants as faults;
ghost use Rattle.ftl_edits.specs.meaning.Editable.{AreEditsOf};
ghost use Rattle.ftl_answer.specs.reading.sections.Outcomes.{IsOutcome};
ghost use Rattle.ftl_answer.specs.reading.sections.RefusalOf.{IsRefusalOf};

use crate::reading::sections::decision::{Undecided, refused};
use crate::reading::sections::read::wide_tokens;
use crate::reading::sections::status::Status;
use crate::write_edit_fault;
use ftl_checked::Checked;
use ftl_edits::{EditFault, EditList, read_edits};
use ftl_page::Section;
use ftl_tokens::WideScanned;
use ftl_tree::Tree;
use std::alloc::Global;

/// The edits of a tree that the text spells.
#[inline(never)]
pub fn edits_of(
    alloc: Global,
    checked: &Checked,
    tree: &Tree<'_>,
    text: String,
) -> Result<EditList, Undecided>
    requires grammar { tree.now.checked ≡ checked.now }
    requires short { string_len text ≤ most_page_bytes }
    ensures outcome { IsOutcome (edits checked.now tree.now.tree (string_bytes text)) (λ es. es)
        result }
    // what applying them asks for
    ensures editable { IfOk result (AreEditsOf tree.now) }
{
    match wide_tokens(alloc, Section::Edits, checked.width(), text) {
        Ok(scanned) => edits_of_tokens(alloc, checked, tree, &scanned),
        Err(end) => Err(end),
    }
}

/// The edits that the tokens spell.
#[tactic(auto, using(crate::proofs::reading::sections::FaultEnds::may_refuse))]
fn edits_of_tokens(
    alloc: Global,
    checked: &Checked,
    tree: &Tree<'_>,
    scanned: &WideScanned,
) -> Result<EditList, Undecided>
    requires grammar { tree.now.checked ≡ checked.now }
    requires greatest { scanned.now.greatest ≡ greatest_of_width checked.now.width }
    ensures outcome { IsOutcome (spelled_edits checked.now tree.now.tree scanned.now) (λ es. es)
        result }
    ensures editable { IfOk result (AreEditsOf tree.now) }
{
    match read_edits(alloc, checked, tree, scanned) {
        Ok(edits) => Ok(edits),
        Err(fault) => Err(edits_refused(alloc, fault)),
    }
}

fn edits_refused(alloc: Global, fault: EditFault) -> Undecided
    ensures ends { IsRefusalOf faults.OutOfMemory (λ f. answer.refused 10 (edit_line f)) fault
        result }
{
    if let EditFault::OutOfMemory = fault {
        return Undecided::OutOfMemory;
    }
    let mut line = Vec::new(alloc);
    match write_edit_fault(&mut line, fault) {
        Ok(()) => refused(Status::EDITS_REFUSED, line),
        Err(_) => Undecided::OutOfMemory,
    }
}
