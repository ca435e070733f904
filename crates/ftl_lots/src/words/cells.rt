//! The words of all cells.
ghost use Rattle.std.specs.Prelude.{◌≡◌, ◌*◌, ◌≤◌, length, vec_len, IfOk};
ghost use Rattle.ftl_lots.specs.words.Parts.{HaveRoom, IsCut, IsCutInto, all_words};

use crate::words::copying::{copy_in, copy_out};
use crate::words::parts::Parts;
use std::alloc::{AllocError, Global};
use std::marker::Model;
use std::thread::Threads;

/// The words of cells, in one row or cut into the parts of lots. They lie as they were left until
/// they are asked for otherwise, and what they were copied from stays as room for the next time.
/// Contracts see the words.
#[derive(Drop)]
pub struct CellWords {
    /// All words; room for them where they lie in parts.
    row: Vec<u64>,
    /// The size of the parts that the words lie in; none where they lie in the row.
    size: Option<u32>,
    /// The parts; room for them where the words lie in the row.
    parts: Vec<Vec<u64>>,
}

impl Model for CellWords {
    ghost use Rattle.std.specs.Prelude.{ℕ, List};

    ghost Value = { List ℕ };

    ghost use Rattle.ftl_lots.specs.words.Cells.{AreCellWords, words_inside};

    ghost view = { words_inside };

    ghost invariant = { AreCellWords };
}

impl CellWords {
    /// Words in one row, with parts that are left to be room for them.
    pub fn in_a_row(row: Vec<u64>, parts: Vec<Vec<u64>>) -> CellWords
        ensures words { result ≡ row.items }
    {
        CellWords {
            row,
            size: None,
            parts,
        }
    }

    /// Words in parts, with room for all in one row.
    pub(crate) fn in_parts(parts: Parts, row: Vec<u64>) -> CellWords
        requires cut { IsCut parts.size parts.parts.items }
        requires count { vec_len row ≡ length (all_words parts.parts.items) }
        ensures words { result ≡ all_words parts.parts.items }
    {
        CellWords {
            row,
            size: Some(parts.size),
            parts: parts.parts,
        }
    }

    /// The words in one row, and the parts that are left.
    pub fn into_row<R: Threads + Sync>(self, rt: &R) -> (Vec<u64>, Vec<Vec<u64>>)
        ensures words { result.0.items ≡ self }
    {
        let CellWords {
            mut row,
            size,
            parts,
        } = self;
        if size.is_some() {
            copy_out(rt, parts.as_slice(), row.as_mut_slice());
        }
        (row, parts)
    }

    /// The words in so many parts of this size, and room for all in one row.
    pub(crate) fn into_parts<R: Threads + Sync>(
        self,
        rt: &R,
        alloc: Global,
        size: u32,
        count: u32,
    ) -> Result<(Parts, Vec<u64>), AllocError>
        requires cover { length self ≤ count * size }
        ensures size { IfOk result (λ r. r.0.size ≡ size) }
        ensures cut { IfOk result (λ r. IsCutInto size self count r.0.parts.items) }
        ensures row { IfOk result (λ r. vec_len r.1 ≡ length self) }
    {
        if self.size == Some(size) && self.parts.len() == count as usize {
            let CellWords { row, parts, .. } = self;
            return Ok((Parts { size, parts }, row));
        }
        let (row, left) = self.into_row(rt);
        let mut parts = roomy_parts(alloc, size, count, left)?;
        copy_in(rt, row.as_slice(), size as usize, parts.as_mut_slice());
        Ok((Parts { size, parts }, row))
    }
}

/// So many parts with room for so many words each: those that are left, and new ones after these.
fn roomy_parts(
    alloc: Global,
    size: u32,
    count: u32,
    mut left: Vec<Vec<u64>>,
) -> Result<Vec<Vec<u64>>, AllocError>
    ensures count { IfOk result (λ v. vec_len v ≡ count) }
    ensures room { IfOk result (λ v. HaveRoom size v.items) }
{
    let mut parts = Vec::with_capacity(alloc, count as usize)?;
    for _part in 0..count {
        let mut part = left.pop().unwrap_or(Vec::new(alloc));
        part.clear();
        part.reserve(size as usize)?;
        parts.push(part)?;
    }
    Ok(parts)
}
