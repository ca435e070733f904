//! The attributes of all classes.
ghost use Rattle.std.specs.Prelude.{◌≡◌, ◌<◌, ◌≤◌, None, length, map, sum, IfOk};
ghost use Rattle.ftl_meaning.specs.faults.FirstFault.{first_fault};
ghost use Rattle.ftl_deps.specs.reads.Meant.{meant};
ghost use Rattle.ftl_tree.specs.rows.ClassRows.{AreClassRows, IsClassRow};
ghost use Rattle.ftl_tree.specs.rows.Rows.{sums_from};
ghost use Rattle.ftl_tree.specs.trees.OwnerRuns.{AreRuns, own_counts, shared_counts};

use crate::rows::{ClassRow, sums};
use ftl_checked::Checked;
use std::alloc::{AllocError, Global};

/// How many attributes each interface or each class declares, and how many come before.
#[derive(Drop)]
pub(crate) struct OwnerRuns {
    counts: Vec<u32>,
    firsts: Vec<u32>,
}

/// The attributes of each class.
pub(crate) fn class_rows(alloc: Global, checked: &Checked) -> Result<Vec<ClassRow>, AllocError>
    ensures rows { IfOk result (λ v. AreClassRows (meant checked.now) v.items) }
{
    let shared = shared_runs(alloc, checked)?;
    let own = own_runs(alloc, checked)?;
    let mut rows = Vec::with_capacity(alloc, checked.class_count() as usize)?;
    for class in 0..checked.class_count() {
        rows.push(class_row(checked, &shared, &own, class))?;
    }
    Ok(rows)
}

fn class_row(checked: &Checked, shared: &OwnerRuns, own: &OwnerRuns, class: u32) -> ClassRow
    requires class { class < length checked.now.grammar.classes }
    requires lawful { first_fault checked.now.grammar ≡ None }
    requires shared { AreRuns (shared_counts checked.now.grammar) shared.now }
    requires own { AreRuns (own_counts checked.now.grammar) own.now }
    ensures row { IsClassRow (meant checked.now) class result }
{
    let interface = checked.interface_of(class) as usize;
    let class = class as usize;
    ClassRow {
        shared_first: shared.firsts[interface],
        shared_count: shared.counts[interface],
        own_first: shared.firsts[shared.counts.len()] + own.firsts[class],
        own_count: own.counts[class],
    }
}

fn runs(alloc: Global, counts: Vec<u32>) -> Result<OwnerRuns, AllocError>
    requires few { sum counts.items ≤ 2048 }
    ensures runs { IfOk result (AreRuns counts.items) }
{
    let firsts = sums(alloc, &counts)?;
    Ok(OwnerRuns { counts, firsts })
}

fn shared_runs(alloc: Global, checked: &Checked) -> Result<OwnerRuns, AllocError>
    ensures runs { IfOk result (AreRuns (shared_counts checked.now.grammar)) }
    ensures lawful { first_fault checked.now.grammar ≡ None }
{
    let interfaces = checked.grammar().interfaces.as_slice();
    let mut counts = Vec::with_capacity(alloc, interfaces.len())?;
    for interface in interfaces {
        counts.push(interface.attrs.len() as u32)?;
    }
    runs(alloc, counts)
}

fn own_runs(alloc: Global, checked: &Checked) -> Result<OwnerRuns, AllocError>
    ensures runs { IfOk result (AreRuns (own_counts checked.now.grammar)) }
{
    let classes = checked.grammar().classes.as_slice();
    let mut counts = Vec::with_capacity(alloc, classes.len())?;
    for class in classes {
        counts.push(class.attrs.len() as u32)?;
    }
    runs(alloc, counts)
}
