//! The classes of the nodes of items.
ghost use Rattle.std.specs.Prelude.{◌≡◌, ◌+◌, ◌/◌, ◌<◌, length, slice_index_or, IfOk, OnOk};
ghost use Rattle.ftl_items.specs.stage_items.Cut.{nodes_by};
ghost use Rattle.ftl_model.specs.layout.Path.{top};
ghost use Rattle.ftl_cursors.specs.classes.ClassSets.{HasClassesOf};
ghost use Rattle.ftl_cursors.specs.items.ItemClasses.{AreFirstClasses, AreItemClasses, IsAdded};
ghost use Rattle.ftl_cursors.specs.items.RowsCut.{is_whole_in};
ghost use Rattle.ftl_cursors.specs.items.StageItems.{start_in, tops_of, tree_in};

use crate::classes::{classes_between, with_all};
use crate::items::columns::ItemRows;
use crate::items::view::StageItems;
use ftl_schedule::PassKind;
use std::alloc::{AllocError, Global};

/// For each block of 64 items that follow one another by number, the set of the classes of their
/// nodes, the items of topdown and bottomup passes counted. It takes a look at each node in each
/// pass.
pub fn item_classes(alloc: Global, items: StageItems<'_>) -> Result<Vec<u128>, AllocError>
    ensures sets { IfOk result (λ v. AreItemClasses items.entry v.items) }
{
    let block_count = (items.item_count() + 63) / 64;
    let mut sets = Vec::with_capacity(alloc, block_count as usize)?;
    let pass_count = items.passes.len() as u32;
    for pass in 0..pass_count {
        add_pass(items, pass, &mut sets)?;
    }
    Ok(sets)
}

/// Adds the classes of the items of a pass, where those of the passes before it are there.
fn add_pass(items: StageItems<'_>, pass: u32, sets: &mut Vec<u128>) -> Result<(), AllocError>
    requires known { pass < length items.passes.now }
    requires before { AreFirstClasses items (start_in items pass) sets.old.items }
    ensures after { OnOk result
        (AreFirstClasses items.entry (start_in items.entry (pass + 1)) sets.new.items) }
{
    let _nodes = items.rows.tree.node_count();
    let rows = items.rows_of(pass);
    let kind = items.passes[pass as usize].kind;
    let start = items.starts[pass as usize];
    for item in 0..rows.count(kind) {
        let number = start + item;
        let classes = classes_of(rows, kind, item);
        add_classes(sets, number, classes)?;
    }
    Ok(())
}

/// Adds classes of the item that comes next, the one of this number, to the set of its block.
fn add_classes(sets: &mut Vec<u128>, item: u32, classes: u128) -> Result<(), AllocError>
    requires count { length sets.old.items ≡ (item + 63) / 64 }
    ensures added { OnOk result (IsAdded item classes sets.old.items sets.new.items) }
{
    if item % 64 == 0 {
        sets.push(classes)?;
    } else {
        let last = sets.len() - 1;
        sets[last] = with_all(sets[last], classes);
    }
    Ok(())
}

/// The classes of the nodes of an item of a pass.
fn classes_of(rows: &ItemRows<'_>, kind: PassKind, item: u32) -> u128
    requires item { item < length (tops_of rows.now kind) }
    ensures classes { HasClassesOf result (tree_in rows.now) (nodes_by (is_whole_in rows.now)
        (tree_in rows.now) (slice_index_or (tops_of rows.now kind) item top)) }
{
    let _nodes = rows.tree.node_count();
    let first = rows.first(kind, item);
    let end = first + rows.node_count(first);
    classes_between(rows.tree, first, end)
}
