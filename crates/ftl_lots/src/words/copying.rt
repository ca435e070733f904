//! Words copied into parts and out of them.
ghost use Rattle.std.specs.Prelude.{◌≡◌, ◌*◌, ◌≤◌, ◌<◌, ◌^◌, length};
ghost use Rattle.std.specs.Thread.{IsSync};
ghost use Rattle.ftl_lots.specs.words.Parts.{HaveRoom, IsCut, IsCutInto, all_words};

use std::thread::{Threads, join_mut};

// So many parts are copied faster than a thread is made.
const FEW_PARTS: usize = 8;

/// Copies the words of parts into a row of as many words, half of them in a thread of its own where
/// the parts are many and one can be made.
pub(crate) fn copy_out<R: Threads + Sync>(rt: &R, parts: &[Vec<u64>], words: &mut [u64])
    requires count { length words.old ≡ length (all_words parts.now) }
    ensures words { words.new ≡ all_words parts.now }
{
    if parts.len() <= FEW_PARTS {
        copy_few_out(parts, words);
        return;
    }
    let (front, back) = parts.split_at(parts.len() / 2);
    let (left, right) = words.split_at_mut(word_count(front));
    join_mut(
        rt,
        &mut ||
            requires sync { IsSync R.row }
            requires count { length left.now ≡ length (all_words front.now) }
            ensures words { left.exit.now ≡ all_words front.entry.now }
        { copy_out(rt, front, left) },
        &mut ||
            requires sync { IsSync R.row }
            requires count { length right.now ≡ length (all_words back.now) }
            ensures words { right.exit.now ≡ all_words back.entry.now }
        { copy_out(rt, back, right) },
    );
}

/// How many words parts have.
fn word_count(parts: &[Vec<u64>]) -> usize
    requires few { length (all_words parts.now) < 2 ^ 64 }
    ensures count { result ≡ length (all_words parts.now) }
{
    match parts.split_first() {
        Some((part, rest)) => part.len() + word_count(rest),
        None => 0,
    }
}

/// Copies the words of parts into a row of as many words.
fn copy_few_out(parts: &[Vec<u64>], words: &mut [u64])
    requires count { length words.old ≡ length (all_words parts.now) }
    ensures words { words.new ≡ all_words parts.now }
{
    let Some((part, rest)) = parts.split_first() else {
        return;
    };
    let (left, right) = words.split_at_mut(part.len());
    left.copy_from_slice(part.as_slice());
    copy_few_out(rest, right);
}

/// Cuts words into parts of one size that have room for them, half of them in a thread of its own
/// where the parts are many and one can be made.
pub(crate) fn copy_in<R: Threads + Sync>(rt: &R, words: &[u64], size: usize, parts: &mut [Vec<u64>])
    requires room { HaveRoom size parts.old }
    requires cover { length words.now ≤ length parts.old * size }
    ensures cut { IsCutInto size words.now (length parts.old) parts.new }
{
    if parts.len() <= FEW_PARTS {
        copy_few_in(words, size, parts);
        return;
    }
    let half = parts.len() / 2;
    let (left, right) = words.split_at(half.saturating_mul(size).min(words.len()));
    let (front, back) = parts.split_at_mut(half);
    join_mut(
        rt,
        &mut ||
            requires sync { IsSync R.row }
            requires room { HaveRoom size front.now }
            requires cover { length left.now ≤ length front.now * size }
            ensures cut { IsCutInto size left.entry.now (length front.entry.now) front.exit.now }
        { copy_in(rt, left, size, front) },
        &mut ||
            requires sync { IsSync R.row }
            requires room { HaveRoom size back.now }
            requires cover { length right.now ≤ length back.now * size }
            ensures cut { IsCutInto size right.entry.now (length back.entry.now) back.exit.now }
        { copy_in(rt, right, size, back) },
    );
}

/// Cuts words into parts of one size that have room for them.
fn copy_few_in(words: &[u64], size: usize, parts: &mut [Vec<u64>])
    requires room { HaveRoom size parts.old }
    requires cover { length words.now ≤ length parts.old * size }
    ensures cut { IsCutInto size words.now (length parts.old) parts.new }
{
    let Some((part, rest)) = parts.split_first_mut() else {
        return;
    };
    let (left, right) = words.split_at(size.min(words.len()));
    part.clear();
    part.extend_from_slice(left).unwrap();
    copy_few_in(right, size, rest);
}
