//! Columns: numbers, one for each node.
ghost use Rattle.std.specs.Prelude.{◌≡◌, ◌<◌, ◌≤◌, max, length, map, sum, replicate, IfOk};
ghost use Rattle.std.specs.Prelude.{slice_index_or, slice_set};
ghost use Rattle.std.specs.List.{All};
ghost use Rattle.ftl_tree.specs.rows.Rows.{starts_by, sums_from};

use crate::rows::row::NodeRow;
use std::alloc::{AllocError, Global};

/// The sums of none, of one, and so on up to all of these numbers.
pub fn sums(alloc: Global, numbers: &[u32]) -> Result<Vec<u32>, AllocError>
    requires bound { sum numbers.now ≤ 4294967295 }
    ensures sums { IfOk result (λ v. v.items ≡ sums_from 0 numbers.now) }
{
    let mut sums = Vec::with_capacity(alloc, numbers.len() + 1)?;
    let mut sum = 0;
    sums.push(0)?;
    for number in numbers {
        sum += *number;
        sums.push(sum)?;
    }
    Ok(sums)
}

/// The width of each row, by a table with one for each class.
pub fn row_widths(alloc: Global, rows: &[NodeRow], table: &[u32]) -> Result<Vec<u32>, AllocError>
    requires known { All (λ row. row.class < length table.now) rows.now }
    ensures widths { IfOk result (λ v. v.items
        ≡ map (λ row. slice_index_or table.now row.class 0) rows.now) }
{
    let mut widths = Vec::with_capacity(alloc, rows.len())?;
    for row in rows {
        widths.push(table[row.class as usize])?;
    }
    Ok(widths)
}

/// So many zeros.
pub(crate) fn zeros(alloc: Global, count: u32) -> Result<Vec<u32>, AllocError>
    ensures zeros { IfOk result (λ v. v.items ≡ replicate count 0) }
{
    let mut zeros = Vec::with_capacity(alloc, count as usize)?;
    for _ in 0..count {
        zeros.push(0)?;
    }
    Ok(zeros)
}

/// Raises the number at a place to another one, where it is less.
pub(crate) fn raise(numbers: &mut [u32], place: usize, least: u32)
    requires place { place < length numbers.old }
    ensures raised { numbers.new ≡ slice_set numbers.old place
        (max (slice_index_or numbers.old place 0) least) }
{
    let number = numbers[place];
    numbers[place] = number.max(least);
}

/// Where each node begins in a list in which it has as many entries as the table says of its class,
/// and where the last one ends.
pub fn class_starts(alloc: Global, rows: &[NodeRow], table: &[u32]) -> Result<Vec<u32>, AllocError>
    requires known { All (λ row. row.class < length table.now) rows.now }
    requires bound { sum (map (λ row. slice_index_or table.now row.class 0) rows.now)
        ≤ 4294967295 }
    ensures starts { IfOk result (λ v. v.items
        ≡ starts_by (λ k. slice_index_or table.now k 0) rows.now) }
{
    let widths = row_widths(alloc, rows, table)?;
    sums(alloc, &widths)
}
