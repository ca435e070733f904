//! How many nodes the tree at each node has.
ghost use Rattle.std.specs.Prelude.{◌≡◌, ℕ, ◌<◌, ◌≤◌, ◌-◌, length, slice_index_or, IfOk};
ghost use Rattle.std.specs.List.{range_with_len};
ghost use Rattle.ftl_model.specs.layout.AttributeGrammar.{AttributeGrammar};
ghost use Rattle.ftl_model.specs.layout.Tree.{Forest};
ghost use Rattle.ftl_tree.specs.rows.Rows.{AreTreeRows, IsPreorder, ends_of, sizes_of};

use crate::rows::columns::raise;
use crate::rows::row::NodeRow;
use std::alloc::{AllocError, Global};

/// How many nodes the tree at each node has, the node itself counted, by the parents of all.
pub fn subtree_sizes(alloc: Global, rows: &[NodeRow]) -> Result<Vec<u32>, AllocError>
    requires rows { (g : AttributeGrammar) × IsPreorder g rows.now }
    ensures sizes { (g : AttributeGrammar) (t : Forest) → AreTreeRows g t rows.now
        → IfOk result (λ v. v.items ≡ sizes_of t) }
{
    let mut ends = own_ends(alloc, rows.len())?;
    hand_on_ends(rows, &mut ends);
    take_off_numbers(&mut ends);
    Ok(ends)
}

// Where each node ends without those below it.
fn own_ends(alloc: Global, count: usize) -> Result<Vec<u32>, AllocError>
    requires count { count ≤ 1048576 }
    ensures ends { IfOk result (λ v. v.items ≡ range_with_len 1 count) }
{
    let mut ends = Vec::with_capacity(alloc, count)?;
    for node in 0..count {
        ends.push(node as u32 + 1)?;
    }
    Ok(ends)
}

// Hands the end of each node on to its parent, from the last node to the first.
fn hand_on_ends(rows: &[NodeRow], ends: &mut [u32])
    requires rows { (g : AttributeGrammar) × IsPreorder g rows.now }
    requires own { ends.old ≡ range_with_len 1 (length rows.now) }
    ensures ends { (g : AttributeGrammar) (t : Forest) → AreTreeRows g t rows.now
        → ends.new ≡ ends_of t }
{
    for back in 1..rows.len() {
        let node = rows.len() - back;
        let end = ends[node];
        raise(ends, rows[node].parent as usize, end);
    }
}

// Takes the number of each node off its end.
fn take_off_numbers(ends: &mut [u32])
    requires count { length ends.old ≤ 1048576 }
    requires ends { (n : ℕ) → n < length ends.old → n ≤ slice_index_or ends.old n 0 }
    ensures count { length ends.new ≡ length ends.old }
    ensures sizes { (n : ℕ) → n < length ends.old
        → slice_index_or ends.new n 0 ≡ slice_index_or ends.old n 0 - n }
{
    for node in 0..ends.len() {
        ends[node] -= node as u32;
    }
}
