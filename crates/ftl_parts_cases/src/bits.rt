// Rows and matrices of bits.
ghost use Rattle.std.specs.Prelude.{◌<◌, length};

use crate::requests::number;
use lane_rows::{BitMatrix, BitRow};
use std::alloc::{AllocError, Global};
use std::fmt::Write;

/// Each line has two sets with `|` between them. Printed are the first; whether it is within the
/// second and the least number that is missing there; what is left of it after the second was taken
/// away; and that with the second and the first added.
pub(crate) fn write_rows(out: &mut String, lines: &str) -> Result<(), AllocError> {
    for line in lines.lines() {
        let (first, second) = line.split_once('|').unwrap_or((line, ""));
        write_sets(out, first, second)?;
    }
    Ok(())
}

fn write_sets(out: &mut String, first: &str, second: &str) -> Result<(), AllocError> {
    let mut row = row_of(first);
    let other = row_of(second);
    write_numbers(out, "row", &row)?;
    write!(out, "; within {}", row.subset(&other))?;
    write!(out, ", missing {:?}", row.first_missing(&other))?;
    row.minus_into(&other);
    write_numbers(out, "; left", &row)?;
    row.union_into(&other);
    row.union_into(&row_of(first));
    write_numbers(out, "; joined", &row)?;
    out.push('\n')
}

/// The set of the numbers below 2048 that the words write.
fn row_of(words: &str) -> BitRow {
    let mut row = BitRow::empty();
    for word in words.split_whitespace() {
        let bit = number(word);
        if bit < 2048 {
            row.put(bit);
        }
    }
    row
}

/// How many numbers the row says that it has, and each that it has.
fn write_numbers(out: &mut String, name: &str, row: &BitRow) -> Result<(), AllocError> {
    write!(out, "{name} {} of", row.count())?;
    for bit in 0..2048 {
        if row.has(bit) {
            write!(out, " {bit}")?;
        }
    }
    Ok(())
}

/// A matrix of this size with an entry for each line `FROM TO`: its entries before it is closed,
/// and after.
pub(crate) fn write_matrix(
    alloc: Global,
    out: &mut String,
    size: &str,
    lines: &str,
) -> Result<(), AllocError> {
    let mut matrix = BitMatrix::new(alloc, number(size).min(2048))?;
    writeln!(out, "size {}", matrix.size())?;
    for line in lines.lines() {
        put_entry(&mut matrix, line);
    }
    write_entries(out, "entries", &matrix)?;
    matrix.close();
    write_entries(out, "closed", &matrix)
}

/// Puts the entry, where the matrix has room for it.
fn put_entry(matrix: &mut BitMatrix, line: &str) {
    let (from, to) = line.split_once(' ').unwrap_or((line, ""));
    let (from, to) = (number(from), number(to));
    if from < matrix.size() && to < matrix.size() {
        matrix.put(from, to);
    }
}

/// Each entry that the matrix has.
fn write_entries(out: &mut String, name: &str, matrix: &BitMatrix) -> Result<(), AllocError> {
    out.push_str(name)?;
    for from in 0..matrix.size() {
        write_entries_from(out, matrix, from)?;
    }
    out.push('\n')
}

fn write_entries_from(out: &mut String, matrix: &BitMatrix, from: u32) -> Result<(), AllocError>
    requires from { from < length matrix.now }
{
    for to in 0..matrix.size() {
        if matrix.has(from, to) {
            write!(out, " {from}-{to}")?;
        }
    }
    Ok(())
}
