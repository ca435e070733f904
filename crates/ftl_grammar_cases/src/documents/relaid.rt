//! Trees that are laid out anew. Behind the document of a case stand edits, and behind these, also
//! behind `==`, a bound for how often code is run to compute the values anew that they touch.

ghost use Rattle.std.specs.Prelude.{◌≡◌, IfOk, IfSome};
ghost use Rattle.ftl_base.specs.Widths.{greatest_of_width};
ghost use Rattle.ftl_deps.specs.reads.Meant.{meant};
ghost use Rattle.ftl_edits.specs.meaning.Editable.{AreEditsOf};
ghost use Rattle.ftl_model.specs.layout.Table.{SolvesList};
ghost use Rattle.ftl_step_value.specs.value.StepValue.{IsCodeFor};

use crate::documents::greatest_number;
use crate::documents::values::values_by_demand;
use ftl_base::Val;
use ftl_checked::Checked;
use ftl_deps::dep_table;
use ftl_edits::{EditFault, EditList, read_edits};
use ftl_noncircular::{CircularFault, Noncircular, noncircular};
use ftl_relayout::relayout;
use ftl_schedule::Accepted;
use ftl_scheduler::{FindFault, find_schedule};
use ftl_tokens::{TokenFault, WideScanned, document_tokens};
use ftl_tree::{InstanceList, Tree};
use ftl_visit::{Programs, Runner, compile};
use std::alloc::{AllocError, Global};
use std::fmt::Write;

/// The instances that edits touch, by number, and how often code was run.
#[derive(Drop)]
struct Relaid {
    touched: InstanceList,
    runs: u64,
}

/// The numbers of the instances that the edits touch, and whether code was run no more often than
/// the bound says.
pub(crate) fn write_relaid(
    alloc: Global,
    out: &mut String,
    checked: &Checked,
    tree: &mut Tree,
    edits_and_bound: &str,
) -> Result<(), AllocError>
    requires grammar { tree.old.checked ≡ checked.now }
{
    let (edits, bound) = edits_and_bound
        .split_once("==")
        .unwrap_or((edits_and_bound, ""));
    let bound = bound.trim().parse::<u64>().unwrap_or(0);
    match relaid_by_text(alloc, checked, tree, edits)? {
        Some(relaid) => write_touched(out, &relaid, bound),
        None => out.push_str("not laid out anew\n"),
    }
}

fn write_touched(out: &mut String, relaid: &Relaid, bound: u64) -> Result<(), AllocError> {
    out.push_str("touched")?;
    for number in relaid.touched.as_slice() {
        write!(out, " {}", *number)?;
    }
    let within = if relaid.runs <= bound {
        "true"
    } else {
        "false"
    };
    write!(out, "\nruns at most {bound}: {within}\n")
}

/// None where the text is no edits, or the grammar has no schedule or is circular.
fn relaid_by_text(
    alloc: Global,
    checked: &Checked,
    tree: &mut Tree,
    text: &str,
) -> Result<Option<Relaid>, AllocError>
    requires grammar { tree.old.checked ≡ checked.now }
{
    match edits_in(alloc, checked, tree, text)? {
        Some(edits) => relaid_by_edits(alloc, checked, tree, &edits),
        None => Ok(None),
    }
}

fn edits_in(
    alloc: Global,
    checked: &Checked,
    tree: &Tree,
    text: &str,
) -> Result<Option<EditList>, AllocError>
    requires grammar { tree.now.checked ≡ checked.now }
    ensures edits { IfOk result (λ o. IfSome o (AreEditsOf tree.now)) }
{
    if text.len() > 67108864 {
        return Ok(None);
    }
    let text = String::from_str(alloc, text)?;
    match document_tokens(alloc, text, greatest_number(checked.width())) {
        Ok(scanned) => edits_of_tokens(alloc, checked, tree, &scanned),
        Err(TokenFault::OutOfMemory) => Err(AllocError),
        Err(_) => Ok(None),
    }
}

fn edits_of_tokens(
    alloc: Global,
    checked: &Checked,
    tree: &Tree,
    scanned: &WideScanned,
) -> Result<Option<EditList>, AllocError>
    requires grammar { tree.now.checked ≡ checked.now }
    requires width { scanned.now.greatest ≡ greatest_of_width checked.now.width }
    ensures edits { IfOk result (λ o. IfSome o (AreEditsOf tree.now)) }
{
    match read_edits(alloc, checked, tree, scanned) {
        Ok(edits) => Ok(Some(edits)),
        Err(EditFault::OutOfMemory) => Err(AllocError),
        Err(_) => Ok(None),
    }
}

fn relaid_by_edits(
    alloc: Global,
    checked: &Checked,
    tree: &mut Tree,
    edits: &EditList,
) -> Result<Option<Relaid>, AllocError>
    requires grammar { tree.old.checked ≡ checked.now }
    requires edits { AreEditsOf tree.old edits.now }
{
    let deps = dep_table(alloc, checked)?;
    match find_schedule(alloc, checked, &deps) {
        Ok(accepted) => relaid_scheduled(alloc, checked, &accepted, tree, edits),
        Err(FindFault::OutOfMemory) => Err(AllocError),
        Err(_) => Ok(None),
    }
}

fn relaid_scheduled(
    alloc: Global,
    checked: &Checked,
    accepted: &Accepted<'_>,
    tree: &mut Tree,
    edits: &EditList,
) -> Result<Option<Relaid>, AllocError>
    requires accepted { accepted.now.checked ≡ checked.now }
    requires grammar { tree.old.checked ≡ checked.now }
    requires edits { AreEditsOf tree.old edits.now }
{
    let deps = dep_table(alloc, checked)?;
    match noncircular(alloc, checked, &deps) {
        Ok(found) => Ok(Some(relaid_noncircular(alloc, checked, accepted, &found, tree, edits)?)),
        Err(CircularFault::OutOfMemory) => Err(AllocError),
        Err(_) => Ok(None),
    }
}

fn relaid_noncircular(
    alloc: Global,
    checked: &Checked,
    accepted: &Accepted<'_>,
    found: &Noncircular<'_>,
    tree: &mut Tree,
    edits: &EditList,
) -> Result<Relaid, AllocError>
    requires accepted { accepted.now.checked ≡ checked.now }
    requires noncircular { found.now ≡ checked.now }
    requires grammar { tree.old.checked ≡ checked.now }
    requires edits { AreEditsOf tree.old edits.now }
{
    let programs = compile(alloc, checked)?;
    let mut values = values_by_demand(alloc, checked, found, &programs, tree)?;
    relaid_by_runner(
        alloc,
        checked,
        accepted,
        &programs,
        tree,
        values.as_mut_slice(),
        edits,
    )
}

/// By a runner that ran nothing before.
fn relaid_by_runner(
    alloc: Global,
    checked: &Checked,
    accepted: &Accepted<'_>,
    programs: &Programs,
    tree: &mut Tree,
    values: &mut [Val],
    edits: &EditList,
) -> Result<Relaid, AllocError>
    requires accepted { accepted.now.checked ≡ checked.now }
    requires code { IsCodeFor checked.now programs.now }
    requires grammar { tree.old.checked ≡ checked.now }
    requires values { SolvesList (meant checked.now) tree.old.tree values.old }
    requires edits { AreEditsOf tree.old edits.now }
{
    let mut runner = Runner::new(programs);
    let touched = relayout(alloc, checked, accepted, &mut runner, tree, values, edits)?;
    let runs = runner.runs();
    Ok(Relaid { touched, runs })
}
