//! Trees without inputs of their own.

ghost use Rattle.std.specs.Prelude.{◌≡◌, pos, replicate, IfOk};
ghost use Rattle.ftl_deps.specs.reads.Meant.{meant};
ghost use Rattle.ftl_model.specs.layout.Tree.{Forest};
ghost use Rattle.ftl_tree.specs.rows.Rows.{AreTreeRows, IsPreorder, all_inputs};
ghost use Rattle.ftl_tree.specs.trees.Bare.{AreBareRows, bare, rooted};

use crate::rows::{NodeRow, Place};
use crate::trees::build::first_inputs;
use crate::trees::class_table::class_rows;
use crate::trees::input_counts::counts_of_inputs;
use crate::trees::tree::Tree;
use ftl_checked::Checked;
use std::alloc::{AllocError, Global};

/// The tree that has these rows, in preorder, with every input 0. What the first row says of where
/// its node stands plays no part.
pub fn bare_tree<'a>(
    alloc: Global,
    checked: &'a Checked,
    rows: &[NodeRow],
) -> Result<Tree<'a>, AllocError>
    requires rows { (t : Forest) × AreBareRows (meant checked.now) t rows.now }
    ensures tree { (t : Forest) → AreBareRows (meant checked.now) t rows.now
        → IfOk result (λ r. r ≡ record { checked = checked.now; tree = bare t }) }
{
    let rows = rooted(alloc, rows)?;
    let inputs = zeros(alloc, checked, &rows)?;
    Tree::from_nodes(alloc, checked, rows, inputs)
}

// The rows, the first as that of the root.
fn rooted(alloc: Global, rows: &[NodeRow]) -> Result<Vec<NodeRow>, AllocError>
    ensures rows { IfOk result (λ v. v.items ≡ rooted rows.now) }
{
    let mut copy = Vec::with_capacity(alloc, rows.len())?;
    copy.extend_from_slice(rows)?;
    if rows.len() > 0 {
        copy[0] = NodeRow {
            class: rows[0].class,
            parent: 0,
            place: Place { child: 0, kid: 0 },
        };
    }
    Ok(copy)
}

// A zero for each input of each node.
fn zeros(alloc: Global, checked: &Checked, rows: &[NodeRow]) -> Result<Vec<i64>, AllocError>
    requires rows { IsPreorder (meant checked.now) rows.now }
    ensures zeros { (t : Forest) → AreTreeRows (meant checked.now) t rows.now
        → IfOk result (λ v. v.items ≡ all_inputs (bare t)) }
{
    let classes = class_rows(alloc, checked)?;
    let counts = counts_of_inputs(alloc, checked)?;
    let firsts = first_inputs(alloc, checked, &classes, &counts, rows)?;
    let count = firsts[rows.len()];
    zero_numbers(alloc, count as usize)
}

fn zero_numbers(alloc: Global, count: usize) -> Result<Vec<i64>, AllocError>
    ensures zeros { IfOk result (λ v. v.items ≡ replicate count (pos 0)) }
{
    Vec::from_elem(alloc, 0, count)
}
