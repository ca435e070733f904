//! Where bytes come from, and how all of them are read.
ghost use Rattle.std.specs.Prelude.{◌≡◌, ◌≢◌, ℕ, ◌+◌, ◌-◌, ◌^◌, ◌<◌, ◌≤◌, Option, List, [], length};
ghost use Rattle.std.specs.Prelude.{take, drop, IfOk, IfSome, OnOk, OnErr, IfErr, IsErr, IsErrOf};
ghost use Rattle.std.specs.Prelude.{vec_len};
ghost use Rattle.std.specs.Io.{ReadsAtMost};
ghost use Rattle.std.specs.Io.KnownBytes.{Consumes, IsAtEnd, Keeps, ReadConsumes};
ghost use Rattle.ftl_edge.specs.Counts.{raised, Rose, RoseBy, RisesByOk};
ghost use Rattle.ftl_edge.specs.Source.{TakesFront};

use crate::{Failed, ReadAllFault};
use std::alloc::Global;

/// Where bytes come from, some at a time. Contracts see what is left, where the source tells it,
/// and its counts.
pub trait Source {
    /// The bytes that are left, where the source tells them.
    ghost remaining: { Self → Option (List ℕ) };

    /// How often the source has failed. It stands still at 2 ^ 64 - 1, as the counts below do.
    ghost fault_count: { Self → ℕ };

    /// How many bytes were taken.
    ghost taken: { Self → ℕ };

    /// How often `read_some` was called.
    ghost calls: { Self → ℕ };

    /// The source never says that it is at its end. One that leaves this out doesn't promise it.
    ghost never_ends: { Self → Type 0 } = { λ _. ⊥ };

    /// Takes bytes into the front of `room`, and answers how many. 0 for a room that is not
    /// empty means the end.
    fn read_some(&mut self, room: &mut [u8]) -> Result<usize, Failed>
        // What is taken.
        ensures within { ReadsAtMost result room.new }
        ensures bytes { ReadConsumes (remaining self.old) (remaining self.new) result room.new }

        // Faults.
        ensures kept { fault_count self.old ≤ fault_count self.new }
        ensures cause { OnErr result (Rose (fault_count self.old) (fault_count self.new)) }

        // The other counts.
        ensures taken { RisesByOk (taken self.old) (taken self.new) result }
        ensures called { calls self.new ≡ raised (calls self.old) 1 }

        // The end, for a source that never comes to it.
        ensures endless { never_ends self.old → never_ends self.new }
        ensures no_end { never_ends self.old → IfOk result (λ n. n ≡ 0 → length room.old ≡ 0) };

    /// How often the source has failed.
    fn faults(&self) -> u64
        ensures count { result ≡ fault_count self.now };
}

// How many bytes a call is asked for at most.
const READ_SIZE: usize = 1 << 16;

/// Reads to the end, in as many calls as the source needs, and gives up as soon as more bytes than
/// the limit were taken.
pub fn read_all<S: Source>(
    alloc: Global,
    source: &mut S,
    limit: usize,
) -> Result<Vec<u8>, ReadAllFault>
    // On success: all the bytes that were left, and no more than the limit.
    ensures whole { IfOk result (λ v. IfSome (S.remaining source.old) (λ left. v.items ≡ left)) }
    ensures end { OnOk result (IfSome (S.remaining source.old)
        (λ _. S.remaining source.new ≡ Some [])) }
    ensures no_end { S.never_ends source.old → IsErr result }
    ensures short { IfOk result (λ v. vec_len v ≤ limit) }
    ensures counted { IfOk result
        (λ v. RoseBy (vec_len v) (S.taken source.old) (S.taken source.new)) }

    // Each fault has its cause.
    ensures fault { IsErrOf result ReadAllFault.ReadFault
        → Rose (S.fault_count source.old) (S.fault_count source.new) }
    ensures too_long { IsErrOf result ReadAllFault.TooLong
        → IfSome (S.remaining source.old) (λ left. limit < length left) }
    ensures over { IsErrOf result ReadAllFault.TooLong
        → raised (S.taken source.old) (limit + 1) ≤ S.taken source.new }
    ensures within { result ≢ Err ReadAllFault.TooLong
        → S.taken source.new ≤ S.taken source.old + limit }

    // Whatever the answer.
    ensures left { TakesFront (S.remaining source.old) (S.remaining source.new)
        (S.taken source.old) (S.taken source.new) }
    ensures at_most { S.taken source.new ≤ S.taken source.old + limit + 1 }
    ensures kept { S.fault_count source.old ≤ S.fault_count source.new }
    ensures turns { S.calls source.new ≤ S.calls source.old + limit + 2 }
{
    let mut bytes = Vec::new(alloc);
    let mut filled = 0;
    while filled <= limit {
        let count = read_more(source, &mut bytes, filled, limit)?;
        if count == 0 {
            bytes.truncate(filled);
            return Ok(bytes);
        }
        filled += count;
    }
    Err(ReadAllFault::TooLong)
}

// One turn: takes bytes to the place behind the first `filled`.
fn read_more<S: Source>(
    source: &mut S,
    bytes: &mut Vec<u8>,
    filled: usize,
    limit: usize,
) -> Result<usize, ReadAllFault>
    requires held { filled ≤ vec_len bytes.old }
    requires short { filled ≤ limit }

    // Where the bytes are.
    ensures front { take filled bytes.new.items ≡ take filled bytes.old.items }
    ensures held { filled ≤ vec_len bytes.new }
    ensures fits { IfOk result (λ n. filled + n ≤ vec_len bytes.new) }
    ensures at_most { IfOk result (λ n. filled + n ≤ limit + 1) }

    // What the source did.
    ensures ok { IfOk result (λ n. Consumes (S.remaining source.old) (S.remaining source.new)
        (take n (drop filled bytes.new.items))) }
    ensures end { IfOk result (λ n. n ≡ 0 → IsAtEnd (S.remaining source.new)) }
    ensures endless { S.never_ends source.old → S.never_ends source.new }
    ensures no_end { S.never_ends source.old → IfOk result (λ n. 0 < n) }
    ensures err { OnErr result (Keeps (S.remaining source.old) (S.remaining source.new)) }
    ensures refused { result ≢ Err ReadAllFault.TooLong }
    ensures fault { IsErrOf result ReadAllFault.ReadFault
        → Rose (S.fault_count source.old) (S.fault_count source.new) }
    ensures kept { S.fault_count source.old ≤ S.fault_count source.new }
    ensures taken { RisesByOk (S.taken source.old) (S.taken source.new) result }
    ensures called { S.calls source.new ≤ S.calls source.old + 1 }
{
    let end = filled + 1 + (limit - filled).min(READ_SIZE - 1);
    if bytes.len() < end {
        bytes.resize(end, 0)?;
    }
    let room = &mut bytes.as_mut_slice()[filled..end];
    Ok(source.read_some(room)?)
}
