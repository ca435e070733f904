//! The tree of a text.

ghost use Rattle.std.specs.Prelude.{◌≡◌, ◌≤◌, length, None, string_bytes, string_len, IfOk};
ghost use Rattle.ftl_model.specs.layout.Limits.{most_page_bytes};
ghost use Rattle.ftl_answer.specs.answers.Answer as answer;
ghost use Rattle.ftl_answer.specs.answers.Stages.{Is, Then, hands_on};
ghost use Rattle.ftl_answer.specs.answers.Texts.{grown_tree, spelled_tree, tree};
ghost use Rattle.ftl_base.specs.Widths.{greatest_of_width};
ghost use Rattle.ftl_answer.specs.reading.sections.Outcomes.{IsOutcome};
ghost use Rattle.ftl_answer.specs.reading.sections.RefusalOf.{IsRefusalOf};
ghost use Rattle.ftl_deps.specs.reads.Meant.{meant};
ghost use Rattle.ftl_document.specs.declared.faults.fault.DocFault.TheVariants as faults;
ghost use Rattle.ftl_document.specs.reading.OfText.{AreNodesOfText};
ghost use Rattle.ftl_step_value.specs.limits.faults.PlanFaults.{first_fault};
ghost use Rattle.ftl_answer.specs.refusals.DocumentLines.{document_line};
ghost use Rattle.ftl_nest_check.specs.stages.Nested.{nests_of};
ghost use Rattle.ftl_nests.specs.Nests.{outer_schedule};

use crate::reading::sections::decision::{Undecided, refused};
use crate::reading::sections::limits::within_limits;
use crate::reading::sections::read::{greatest_of, wide_tokens};
use crate::reading::sections::status::Status;
use crate::write_document_fault;
use ftl_checked::Checked;
use ftl_document::nodes::DocumentNodes;
use ftl_document::{DocFault, nodes_of_text, read_document};
use ftl_nest_check::AcceptedNests;
use ftl_page::Section;
use ftl_tokens::WideScanned;
use ftl_tree::Tree;
use std::alloc::Global;

/// The tree that the text spells, where no outer stage of the schedule reads too much.
#[inline(never)]
pub fn tree_of<'a>(
    alloc: Global,
    checked: &'a Checked,
    accepted: &AcceptedNests<'_>,
    text: String,
) -> Result<Tree<'a>, Undecided>
    requires short { string_len text ≤ most_page_bytes }
    ensures outcome { IsOutcome (tree checked.now accepted.now.schedule (string_bytes text))
        (λ t. t.tree) result }
    ensures grammar { IfOk result (λ t. t.checked ≡ checked.now) }
    // what a plan of it asks for
    ensures fits { IfOk result (λ t. first_fault (meant checked.now)
        (outer_schedule (nests_of accepted.now.schedule)) t.tree ≡ None) }
{
    match grown_tree_of(alloc, checked, text) {
        Ok(tree) => within_limits(alloc, checked, accepted, tree),
        Err(end) => Err(end),
    }
}

/// The tree that the text spells. A text that is plain is read from its bytes.
#[inline(never)]
pub fn grown_tree_of<'a>(
    alloc: Global,
    checked: &'a Checked,
    text: String,
) -> Result<Tree<'a>, Undecided>
    requires short { string_len text ≤ most_page_bytes }
    ensures outcome { IsOutcome (grown_tree checked.now (string_bytes text)) (λ t. t.tree) result }
    ensures grammar { IfOk result (λ t. t.checked ≡ checked.now) }
{
    match nodes_of_text(alloc, checked, text.as_str(), greatest_of(checked.width())) {
        Ok(Some(nodes)) => tree_of_nodes(alloc, checked, text, nodes),
        Ok(None) => scanned_tree_of(alloc, checked, text),
        Err(_) => Err(Undecided::OutOfMemory),
    }
}

/// The tree of these nodes. The text is given back first, as the columns of a tree take about as
/// much memory.
fn tree_of_nodes<'a>(
    alloc: Global,
    checked: &'a Checked,
    text: String,
    nodes: DocumentNodes,
) -> Result<Tree<'a>, Undecided>
    requires nodes { AreNodesOfText checked.now (string_bytes text) nodes }
    ensures outcome { IsOutcome (grown_tree checked.now (string_bytes text)) (λ t. t.tree) result }
    ensures grammar { IfOk result (λ t. t.checked ≡ checked.now) }
{
    drop(text);
    let DocumentNodes { rows, inputs } = nodes;
    match Tree::from_nodes(alloc, checked, rows, inputs) {
        Ok(tree) => Ok(tree),
        Err(_) => Err(Undecided::OutOfMemory),
    }
}

/// The same, from the tokens of the text.
fn scanned_tree_of<'a>(
    alloc: Global,
    checked: &'a Checked,
    text: String,
) -> Result<Tree<'a>, Undecided>
    requires short { string_len text ≤ most_page_bytes }
    ensures outcome { IsOutcome (grown_tree checked.now (string_bytes text)) (λ t. t.tree) result }
    ensures grammar { IfOk result (λ t. t.checked ≡ checked.now) }
{
    match wide_tokens(alloc, Section::Document, checked.width(), text) {
        Ok(scanned) => tree_of_tokens(alloc, checked, &scanned),
        Err(end) => Err(end),
    }
}

/// The tree that the tokens spell.
fn tree_of_tokens<'a>(
    alloc: Global,
    checked: &'a Checked,
    scanned: &WideScanned,
) -> Result<Tree<'a>, Undecided>
    requires greatest { scanned.now.greatest ≡ greatest_of_width checked.now.width }
    ensures outcome { IsOutcome (Then (spelled_tree checked.now scanned.now)
        (λ t. Is (hands_on t.tree))) (λ t. t.tree) result }
    ensures grammar { IfOk result (λ t. t.checked ≡ checked.now) }
{
    match read_document(alloc, checked, scanned) {
        Ok(tree) => Ok(tree),
        Err(fault) => Err(document_refused(alloc, checked, &fault)),
    }
}

/// The end with the line of a document's first fault.
pub(crate) fn document_refused(alloc: Global, checked: &Checked, fault: &DocFault) -> Undecided
    ensures ends { IsRefusalOf faults.OutOfMemory
        (λ f. answer.refused 7 (document_line checked.now.grammar f)) fault.now result }
{
    if let DocFault::OutOfMemory = fault {
        return Undecided::OutOfMemory;
    }
    let mut line = Vec::new(alloc);
    match write_document_fault(&mut line, checked, fault) {
        Ok(()) => refused(Status::DOCUMENT_REFUSED, line),
        Err(_) => Undecided::OutOfMemory,
    }
}
