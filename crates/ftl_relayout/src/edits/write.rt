//! The numbers of edits, written into the values of a tree.
ghost use Rattle.std.specs.Prelude.{◌≡◌, ◌<◌, [], length, slice_set, OnOk};
ghost use Rattle.std.specs.List.{All};
ghost use Rattle.ftl_deps.specs.reads.Meant.{meant};
ghost use Rattle.ftl_model.specs.layout.Table.{instance_count};
ghost use Rattle.ftl_model.specs.layout.Values.{number};
ghost use Rattle.ftl_relayout.specs.laws.Edits.{AreInputEdits, IsInputEdit, edited_cell, written};
ghost use Rattle.ftl_relayout.specs.queue.Trails.{undone};

use crate::queue::Before;
use ftl_base::Val;
use ftl_edits::Edit;
use ftl_tree::Tree;
use std::alloc::AllocError;

/// Writes the numbers of edits into the values, one after the other.
pub(crate) fn write_inputs(
    tree: &Tree<'_>,
    edits: &[Edit],
    values: &mut [Val],
    trail: &mut Vec<Before>,
) -> Result<(), AllocError>
    requires edits { AreInputEdits (meant tree.now.checked) tree.now.tree edits.now }
    requires count { length values.old ≡ instance_count (meant tree.now.checked) tree.now.tree }
    requires empty { trail.old.items ≡ [] }
    ensures written { OnOk result (values.new
        ≡ written (meant tree.now.checked) tree.now.tree edits.now values.old) }
    // what a failure leaves
    ensures undone { undone trail.new.items values.new ≡ values.old }
    ensures within { All (λ b. b.cell < length values.new) trail.new.items }
{
    for edit in edits {
        write_input(tree, *edit, values, trail)?;
    }
    Ok(())
}

/// Writes the number of an edit.
fn write_input(
    tree: &Tree<'_>,
    edit: Edit,
    values: &mut [Val],
    trail: &mut Vec<Before>,
) -> Result<(), AllocError>
    requires edit { IsInputEdit (meant tree.now.checked) tree.now.tree edit }
    requires count { length values.old ≡ instance_count (meant tree.now.checked) tree.now.tree }
    requires within { All (λ b. b.cell < length values.old) trail.old.items }
    ensures written { OnOk result (values.new ≡ slice_set values.old
        (edited_cell (meant tree.now.checked) tree.now.tree edit) (number edit.value)) }
    ensures undone { undone trail.new.items values.new ≡ undone trail.old.items values.old }
    ensures within { All (λ b. b.cell < length values.new) trail.new.items }
{
    let cell = tree.instance(edit.node, edit.attr);
    let before = values[cell as usize];
    trail.push(Before {
        cell,
        value: before,
    })?;
    values[cell as usize] = Val::num(edit.value);
    Ok(())
}
