//! The edits that written ones stand for.

ghost use Rattle.std.specs.Prelude.{◌≡◌, ◌<◌, ◌≤◌, length};
ghost use Rattle.ftl_model.specs.layout.Outcome.{Gives};
ghost use Rattle.ftl_model.specs.layout.Tree.{size};
ghost use Rattle.ftl_edits.specs.declared.meaning.fault.EditFault.TheVariants.{OutOfMemory};
ghost use Rattle.ftl_edits.specs.meaning.Meaning.{edits_of, FindsEdit, FindsEdits, input_in};
ghost use Rattle.ftl_edits.specs.meaning.Meaning.{input_of, most_edits};

use crate::meaning::fault::EditFault;
use crate::meaning::types::{Edit, EditList};
use crate::syntax::WrittenEdit;
use ftl_checked::Checked;
use ftl_meaning::Field;
use ftl_tree::Tree;
use sqlite_items::Items;
use std::alloc::Global;

/// How many edits a text may have.
const MOST_EDITS: usize = 1_048_576;

/// The edits at a tree, or the first fault: too many, or the first edit that is faulty.
pub fn edits_of(
    alloc: Global,
    checked: &Checked,
    tree: &Tree<'_>,
    written: &[WrittenEdit<'_>],
) -> Result<EditList, EditFault>
    requires tree { tree.now.checked ≡ checked.now }
    requires count { length written.now ≤ 4294967295 }
    ensures exact { Gives OutOfMemory (λ edits. edits) result (edits_of tree.now written.now) }
{
    if written.len() > MOST_EDITS {
        return Err(EditFault::TooMany {
            count: written.len() as u32,
        });
    }
    found_edits(alloc, checked, tree, written)
}

// The edits, or the first that is faulty.
fn found_edits(
    alloc: Global,
    checked: &Checked,
    tree: &Tree<'_>,
    written: &[WrittenEdit<'_>],
) -> Result<EditList, EditFault>
    requires tree { tree.now.checked ≡ checked.now }
    requires few { length written.now ≤ most_edits }
    ensures finds { FindsEdits tree.now written.now result }
{
    let mut found = Items::new(alloc);
    for place in 0..written.len() {
        let edit = found_edit(checked, tree, place as u32 + 1, &written[place])?;
        found.push(edit)?;
    }
    Ok(found)
}

// The edit of this number, or its fault.
fn found_edit(
    checked: &Checked,
    tree: &Tree<'_>,
    number: u32,
    written: &WrittenEdit<'_>,
) -> Result<Edit, EditFault>
    requires tree { tree.now.checked ≡ checked.now }
    ensures finds { FindsEdit tree.now number written.now result }
{
    if written.node >= tree.node_count() as u64 {
        return Err(EditFault::UnknownNode { edit: number });
    }
    let node = written.node as u32;
    match found_input(checked, tree, node, written) {
        Some(attr) => Ok(Edit {
            node,
            attr,
            value: written.value,
        }),
        None => Err(EditFault::UnknownInput { edit: number }),
    }
}

// The input that an edit names of this node.
fn found_input(
    checked: &Checked,
    tree: &Tree<'_>,
    node: u32,
    written: &WrittenEdit<'_>,
) -> Option<u32>
    requires tree { tree.now.checked ≡ checked.now }
    requires is_node { node ≡ written.now.node }
    requires node { node < size tree.now.tree }
    ensures input { result ≡ input_of tree.now written.now }
{
    let _count = tree.node_count();
    let class = tree.class(node);
    input_in(checked.find_field(class, written.name.text()))
}

// The number of a field that is an input.
fn input_in(field: Option<Field>) -> Option<u32>
    ensures input { result ≡ input_in field }
{
    match field {
        Some(Field::Input(attr)) => Some(attr),
        Some(Field::Child(_)) | None => None,
    }
}
