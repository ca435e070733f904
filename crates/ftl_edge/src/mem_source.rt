//! A source in memory, which can be made to give few bytes at a time and to fail.
ghost use Rattle.std.specs.Prelude.{◌≡◌, ◌↔◌, ◌<◌, ◌≤◌, [], ◌++◌, length, take, drop, min};
ghost use Rattle.std.specs.Prelude.{Contains, IfOk, IsErr, OnErr, Some};
ghost use Rattle.std.specs.Io.{ReadsAtMost};
ghost use Rattle.std.specs.Io.KnownBytes.{ReadConsumes};
ghost use Rattle.ftl_edge.specs.Counts.{raised, Rose, RisesByOk};
ghost use Rattle.ftl_edge.specs.MemSource.{given, after_read, filled_room};

use crate::{Failed, Source};
use std::marker::Model;

/// A source over bytes in memory. Contracts see its state: what is left, what its calls give, and
/// its counts.
#[derive(Drop)]
pub struct MemSource {
    bytes: Vec<u8>,
    start: usize,
    chunk: usize,
    failing: Vec<u64>,
    calls: u64,
    taken: u64,
    faults: u64,
}

impl Model for MemSource {
    ghost use Rattle.std.specs.Prelude.{◌<◌, ◌≤◌, drop, vec_len};
    ghost use Rattle.ftl_edge.specs.MemSource.{SourceState};

    ghost Value = { SourceState };

    ghost view = { λ s. record {
      left = drop s.start s.bytes.items;
      chunk = s.chunk;
      failing = s.failing.items;
      calls = s.calls;
      taken = s.taken;
      fault_count = s.faults;
    } };

    ghost invariant = { λ s. s.start ≤ vec_len s.bytes × 0 < s.chunk };
}

impl MemSource {
    /// Makes a source of these bytes. A call gives at most `chunk` of them, and the calls whose
    /// numbers, from 0 on, are in `failing` fail.
    pub fn new(bytes: Vec<u8>, chunk: usize, failing: Vec<u64>) -> MemSource
        requires some { 0 < chunk }
        ensures unread { result ≡ record {
          left = bytes.items;
          chunk = chunk;
          failing = failing.items;
          calls = 0;
          taken = 0;
          fault_count = 0;
        } }
    {
        MemSource {
            bytes,
            start: 0,
            chunk,
            failing,
            calls: 0,
            taken: 0,
            faults: 0,
        }
    }
}

impl Source for MemSource {
    ghost remaining = { λ s. Some s.left };

    ghost fault_count = { λ s. s.fault_count };

    ghost taken = { λ s. s.taken };

    ghost calls = { λ s. s.calls };

    fn read_some(&mut self, room: &mut [u8]) -> Result<usize, Failed>
        // What each call does.
        ensures fails { IsErr result ↔ Contains self.old.failing self.old.calls }
        ensures given { IfOk result (λ n. n ≡ given self.old (length room.old)) }
        ensures room { room.new ≡ filled_room self.old room.old result }
        ensures after { self.new ≡ after_read self.old result }

        // What any source promises.
        ensures within { ReadsAtMost result room.new }
        ensures bytes { ReadConsumes (Some self.old.left) (Some self.new.left) result room.new }
        ensures kept { self.old.fault_count ≤ self.new.fault_count }
        ensures cause { OnErr result (Rose self.old.fault_count self.new.fault_count) }
        ensures taken { RisesByOk self.old.taken self.new.taken result }
        ensures called { self.new.calls ≡ raised self.old.calls 1 }
    {
        let number = self.calls;
        self.calls = number.saturating_add(1);
        if self.failing.contains(&number) {
            self.faults = self.faults.saturating_add(1);
            return Err(Failed);
        }
        let count = copy_front(&self.bytes[self.start..], self.chunk, room);
        self.start += count;
        self.taken = self.taken.saturating_add(count as u64);
        Ok(count)
    }

    fn faults(&self) -> u64 {
        self.faults
    }
}

// Copies the front of `left`, at most `most` bytes, to the front of `room`, and answers how many.
fn copy_front(left: &[u8], most: usize, room: &mut [u8]) -> usize
    ensures count { result ≡ min (length left.now) (min most (length room.old)) }
    ensures room { room.new ≡ take result left.now ++ drop result room.old }
{
    let count = left.len().min(most).min(room.len());
    room[..count].copy_from_slice(&left[..count]);
    count
}
