//! The table of what each rule reads, and of which rule writes that first.
ghost use Rattle.std.specs.Prelude.{◌≡◌, ◌<◌, None, length, IfOk};
ghost use Rattle.ftl_meaning.specs.faults.FirstFault.{first_fault};
ghost use Rattle.ftl_deps.specs.reads.DepRows.{dep_rows, reads_at, writer_at};
ghost use Rattle.ftl_deps.specs.reads.Meant.{meant};

use crate::reads::dep_rows::all_rows;
use crate::reads::dep_writers::all_writers;
use ftl_checked::Checked;
use ftl_order::DepRead;
use sqlite_items::Items;
use std::alloc::{AllocError, Global};
use std::marker::Model;

/// What each rule reads, in the order of the text, and which rule writes that first. Contracts see
/// a list of reads and one of writers for each rule.
#[derive(Drop)]
pub struct DepTable {
    reads: Items<Items<DepRead>>,
    writers: Items<Items<Option<u32>>>,
}

impl Model for DepTable {
    ghost use Rattle.ftl_deps.specs.reads.DepRows.{DepRows, IsAligned};

    ghost Value = { DepRows };

    ghost view = { λ t. record { reads = t.reads; writers = t.writers } };

    ghost invariant = { λ t. IsAligned t.reads t.writers };
}

impl DepTable {
    /// What a rule reads.
    pub fn reads(&self, rule: u32) -> &[DepRead]
        requires within { rule < length self.now.reads }
        ensures reads { result.now ≡ reads_at self.now rule }
    {
        self.reads.as_slice()[rule as usize].as_slice()
    }

    /// The first rule that writes what a rule reads at this place among its reads; none where that
    /// is an input, or no rule writes it.
    pub fn first_writer(&self, rule: u32, k: u32) -> Option<u32>
        requires within { rule < length self.now.reads }
        requires place { k < length (reads_at self.now rule) }
        ensures writer { result ≡ writer_at self.now rule k }
    {
        self.writers.as_slice()[rule as usize].as_slice()[k as usize]
    }
}

/// What each rule of a checked grammar reads, and which rule writes that first.
pub fn dep_table(alloc: Global, checked: &Checked) -> Result<DepTable, AllocError>
    ensures exact { IfOk result (λ table. table ≡ dep_rows (meant checked.now)) }
{
    has_no_fault(checked);
    let reads = all_rows(alloc, checked)?;
    let writers = all_writers(alloc, checked, reads.as_slice())?;
    Ok(DepTable { reads, writers })
}

/// A law: a checked grammar has no fault.
fn has_no_fault(checked: &Checked)
    ensures none { first_fault checked.now.grammar ≡ None }
{
    let _ = checked.grammar();
}
