//! The rounds.
ghost use Rattle.std.specs.Prelude.{◌≡◌, ◌<◌, ◌≤◌, length, IfOk};
ghost use Rattle.ftl_deps.specs.reads.Meant.{meant};
ghost use Rattle.ftl_example.specs.sizes.Least.{best_up_to, singles_up_to};
ghost use Rattle.ftl_meaning.specs.faults.Numbering.{class_at};
ghost use Rattle.ftl_example.specs.sizes.SizeTable.{by_table, next_table, table_after};

use crate::sizes::counted::{lesser, sum};
use ftl_checked::Checked;
use std::alloc::{AllocError, Global};

/// The least size of a tree of each interface, counted up to 513.
pub fn least_sizes(alloc: Global, checked: &Checked) -> Result<Vec<Option<u32>>, AllocError>
    ensures sizes { IfOk result (λ v. v.items
        ≡ table_after (meant checked.now) 513 (meant checked.now).interface_count) }
{
    let _ = checked.grammar();
    let count = checked.interface_count();
    after_rounds(alloc, checked, count)
}

// The table after so many rounds.
fn after_rounds(
    alloc: Global,
    checked: &Checked,
    rounds: u32,
) -> Result<Vec<Option<u32>>, AllocError>
    ensures sizes { IfOk result (λ v. v.items ≡ table_after (meant checked.now) 513 rounds) }
{
    let _ = checked.grammar();
    if rounds == 0 {
        Vec::from_elem(alloc, None, checked.interface_count() as usize)
    } else {
        let before = after_rounds(alloc, checked, rounds - 1)?;
        next_sizes(alloc, checked, &before)
    }
}

// One round more.
fn next_sizes(
    alloc: Global,
    checked: &Checked,
    sizes: &[Option<u32>],
) -> Result<Vec<Option<u32>>, AllocError>
    ensures sizes { IfOk result (λ v. v.items ≡ next_table (meant checked.now) 513 sizes.now) }
{
    let _ = checked.grammar();
    let count = checked.interface_count();
    let mut next = Vec::with_capacity(alloc, count as usize)?;
    for interface in 0..count {
        next.push(best(checked, sizes, interface, checked.class_count()))?;
    }
    Ok(next)
}

// The least over the first classes that are of the interface.
fn best(checked: &Checked, sizes: &[Option<u32>], interface: u32, classes: u32) -> Option<u32>
    requires known { classes ≤ length checked.now.grammar.classes }
    ensures best { result
        ≡ best_up_to 513 (meant checked.now) (by_table sizes.now) interface classes }
{
    if classes == 0 {
        return None;
    }
    let class = classes - 1;
    let before = best(checked, sizes, interface, class);
    if checked.interface_of(class) == interface {
        let kids = singles(checked, sizes, class, checked.child_count(class));
        lesser(before, sum(Some(1), kids))
    } else {
        before
    }
}

// The sizes of the first children that are no lists.
pub(crate) fn singles(
    checked: &Checked,
    sizes: &[Option<u32>],
    class: u32,
    children: u32,
) -> Option<u32>
    requires known { class < length checked.now.grammar.classes }
    requires children { children ≤ length (class_at checked.now.grammar class).children }
    ensures singles { result
        ≡ singles_up_to 513 (meant checked.now) (by_table sizes.now) class children }
{
    if children == 0 {
        return Some(0);
    }
    let child = checked.child(class, children - 1);
    let before = singles(checked, sizes, class, children - 1);
    if child.many {
        before
    } else {
        sum(size_at(sizes, child.interface), before)
    }
}

pub(crate) fn size_at(sizes: &[Option<u32>], interface: u32) -> Option<u32>
    ensures size { result ≡ by_table sizes.now interface }
{
    if (interface as usize) < sizes.len() {
        sizes[interface as usize]
    } else {
        None
    }
}
