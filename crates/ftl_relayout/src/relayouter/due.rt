//! The steps that read a changed input come to wait.
ghost use Rattle.std.specs.Prelude.{◌≡◌, ◌≢◌, ℕ, List, [], length, Contains, IsTrue, not, OnOk};
ghost use Rattle.ftl_model.specs.layout.Table.{instance_count};
ghost use Rattle.ftl_model.specs.layout.Values as model;
ghost use Rattle.ftl_relayout.specs.laws.Edits.{AreInputEdits, IsInputEdit, edited_cell};
ghost use Rattle.ftl_relayout.specs.queue.Nets.{IsReaderBy, IsStep, table};
ghost use Rattle.ftl_relayout.specs.queue.Ready.{HasChangedRead, IsDue};
ghost use Rattle.ftl_relayout.specs.readers.Sites.{Adds, IsReaderSite, site_grammar, site_net};
ghost use Rattle.ftl_relayout.specs.relayouter.Due.{AreEditedFrom, IsChangedBy, IsDueBy};

use crate::queue::Waiting;
use crate::readers::{ReaderSite, add_readers};
use ftl_base::Val;
use ftl_edits::Edit;
use std::alloc::AllocError;

/// Lets wait what reads an edited input whose value is not that of the tree.
pub(crate) fn add_due(
    readers: &ReaderSite<'_>,
    values: &[Val],
    edits: &[Edit],
    waiting: &mut Waiting,
) -> Result<(), AllocError>
    requires site { IsReaderSite readers.now }
    requires edits { AreInputEdits (site_grammar readers.now) readers.now.tree.now.tree edits.now }
    requires count { length values.now
        ≡ instance_count (site_grammar readers.now) readers.now.tree.now.tree }
    requires empty { waiting.old.keys ≡ [] }
    ensures due { OnOk result ((old : List model.Value)
        → AreEditedFrom (site_grammar readers.now) readers.now.tree.now.tree edits.now old
        values.now
        → (k : ℕ) → IsStep (site_net readers.now) k
        → HasChangedRead (site_net readers.now) (table old) (table values.now) k
        → Contains waiting.new.keys ((site_net readers.now).key k)) }
    ensures only { (old : List model.Value)
        → AreEditedFrom (site_grammar readers.now) readers.now.tree.now.tree edits.now old
        values.now
        → (k : ℕ) → Contains waiting.new.keys k
        → IsDue (site_net readers.now) (table old) (table values.now) k }
{
    for edit in edits {
        add_changed(readers, values, *edit, waiting)?;
    }
    Ok(())
}

/// Lets wait what reads the edited input, if its value is not that of the tree.
fn add_changed(
    readers: &ReaderSite<'_>,
    values: &[Val],
    edit: Edit,
    waiting: &mut Waiting,
) -> Result<(), AllocError>
    requires site { IsReaderSite readers.now }
    requires edit { IsInputEdit (site_grammar readers.now) readers.now.tree.now.tree edit }
    requires count { length values.now
        ≡ instance_count (site_grammar readers.now) readers.now.tree.now.tree }
    ensures adds { Adds waiting.old.keys waiting.new.keys (IsDueBy readers.now values.now edit) }
    ensures all { OnOk result ((k : ℕ) → IsDueBy readers.now values.now edit k
        → Contains waiting.new.keys k) }
{
    let tree = readers.tree;
    let cell = tree.instance(edit.node, edit.attr);
    if has_number(values[cell as usize], tree.input(edit.node, edit.attr)) {
        return Ok(());
    }
    add_readers(readers, edit.node, edit.attr, waiting)
}

/// Whether a value is this number.
fn has_number(value: Val, input: i64) -> bool
    ensures same { IsTrue result → value ≡ model.number input }
    ensures differ { IsTrue (not result) → value ≢ model.number input }
{
    match value.get() {
        Some(number) => number == input,
        None => false,
    }
}
