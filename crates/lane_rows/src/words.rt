// Rows as lanes: what is done to all of them at once.
ghost use Rattle.std.specs.Prelude.{◌≡◌, ◌≤◌, ◌↔◌, IsNone, IfSome};
ghost use Rattle.std.specs.FinSet as set;
ghost use Rattle.lane_rows.specs.Least.{IsLeastOf};
ghost use Rattle.lane_rows.specs.Words.{row_of};

use std::simd::prelude::*;

pub(crate) const WORDS: usize = 32;

pub(crate) fn union(words: u64x32, other: u64x32) -> u64x32
    ensures joined { row_of result ≡ set.union (row_of words) (row_of other) }
{
    words | other
}

pub(crate) fn minus(words: u64x32, other: u64x32) -> u64x32
    ensures left { row_of result ≡ set.difference (row_of words) (row_of other) }
{
    words & !other
}

pub(crate) fn count(words: u64x32) -> u32
    ensures numbers { result ≡ set.len (row_of words) }
    ensures few { result ≤ 2048 }
{
    words.count_ones().reduce_sum() as u32
}

pub(crate) fn first(words: u64x32) -> Option<u32>
    ensures least { IfSome result (IsLeastOf (row_of words)) }
    ensures none { IsNone result ↔ (row_of words ≡ set.empty) }
{
    let mask = words.simd_ne(u64x32::splat(0)).to_bitmask();
    if mask == 0 {
        return None;
    }
    let lane = mask.trailing_zeros();
    Some(64 * lane + words.to_array()[lane as usize].trailing_zeros())
}
