//! How much a node of each class has.
ghost use Rattle.std.specs.Prelude.{◌≡◌, ◌+◌, ◌-◌, ◌<◌, ◌≤◌, length, slice_index_or, IfOk};
ghost use Rattle.ftl_deps.specs.reads.Meant.{meant};
ghost use Rattle.ftl_tree.specs.rows.ClassRows.{AreClassRows, AreInputCounts, AreWidths};
ghost use Rattle.ftl_tree.specs.rows.Rows.{attribute_width, input_width};

use crate::rows::ClassRow;
use ftl_checked::Checked;
use std::alloc::{AllocError, Global};

/// How many attributes.
pub(crate) fn attribute_widths(
    alloc: Global,
    checked: &Checked,
    classes: &[ClassRow],
) -> Result<Vec<u32>, AllocError>
    requires classes { AreClassRows (meant checked.now) classes.now }
    ensures widths { IfOk result (λ v. AreWidths (attribute_width (meant checked.now))
        (meant checked.now).class_count v.items) }
{
    let mut widths = Vec::with_capacity(alloc, classes.len())?;
    for class in 0..checked.class_count() {
        let row = classes[class as usize];
        widths.push(row.shared_count + row.own_count)?;
    }
    Ok(widths)
}

/// How many inputs.
pub(crate) fn input_widths(
    alloc: Global,
    checked: &Checked,
    classes: &[ClassRow],
    counts: &[u32],
) -> Result<Vec<u32>, AllocError>
    requires classes { AreClassRows (meant checked.now) classes.now }
    requires counts { AreInputCounts (meant checked.now) counts.now }
    ensures widths { IfOk result (λ v. AreWidths (input_width (meant checked.now))
        (meant checked.now).class_count v.items) }
{
    let mut widths = Vec::with_capacity(alloc, classes.len())?;
    for class in 0..checked.class_count() {
        let row = classes[class as usize];
        let shared = inputs_in(counts, row.shared_first, row.shared_count);
        widths.push(shared + inputs_in(counts, row.own_first, row.own_count))?;
    }
    Ok(widths)
}

/// How many children.
pub(crate) fn child_widths(alloc: Global, checked: &Checked) -> Result<Vec<u32>, AllocError>
    ensures widths { IfOk result (λ v. AreWidths (meant checked.now).child_count
        (meant checked.now).class_count v.items) }
{
    let mut widths = Vec::with_capacity(alloc, checked.class_count() as usize)?;
    for class in 0..checked.class_count() {
        widths.push(checked.child_count(class))?;
    }
    Ok(widths)
}

// How many inputs there are in a run of attributes.
fn inputs_in(counts: &[u32], first: u32, count: u32) -> u32
    requires within { first + count < length counts.now }
    requires rise { slice_index_or counts.now first 0
        ≤ slice_index_or counts.now (first + count) 0 }
    ensures inputs { result ≡ slice_index_or counts.now (first + count) 0
        - slice_index_or counts.now first 0 }
{
    counts[first as usize + count as usize] - counts[first as usize]
}
