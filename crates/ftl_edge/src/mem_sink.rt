//! A sink in memory, which can be made to take few bytes at a time and to fail.
ghost use Rattle.std.specs.Prelude.{◌≡◌, ◌↔◌, ◌<◌, ◌≤◌, [], length, IfOk, IsErr, IsTrue, OnErr};
ghost use Rattle.std.specs.Prelude.{Some};
ghost use Rattle.std.specs.Io.{WritesAtMost};
ghost use Rattle.std.specs.Io.KnownBytes.{WriteAppends};
ghost use Rattle.ftl_edge.specs.Counts.{Rose};
ghost use Rattle.ftl_edge.specs.MemSink.{Refuses, accepted, after_write};

use crate::{Failed, Sink};
use std::alloc::{AllocError, Global};
use std::marker::Model;

// How many bytes a sink in memory has room for.
const ROOM: usize = 1 << 20;

/// A sink that keeps its bytes in memory, with room for 1 MiB. Contracts see its state: what was
/// written, what its calls take, and its counts.
#[derive(Drop)]
pub struct MemSink {
    written: Vec<u8>,
    chunk: usize,
    failing: Vec<u64>,
    calls: u64,
    faults: u64,
}

impl Model for MemSink {
    ghost use Rattle.std.specs.Prelude.{◌^◌, ◌<◌, ◌≤◌, vec_len, vec_capacity};
    ghost use Rattle.ftl_edge.specs.MemSink.{SinkState};

    ghost Value = { SinkState };

    ghost view = { λ s. record {
      written = s.written.items;
      chunk = s.chunk;
      failing = s.failing.items;
      calls = s.calls;
      fault_count = s.faults;
    } };

    ghost invariant = { λ s. vec_len s.written ≤ 2 ^ 20 × 2 ^ 20 ≤ vec_capacity s.written
        × 0 < s.chunk };
}

impl MemSink {
    /// Makes an empty sink, and reserves all of its room. A call takes at most `chunk` bytes, and
    /// the calls whose numbers, from 0 on, are in `failing` fail.
    pub fn new(alloc: Global, chunk: usize, failing: Vec<u64>) -> Result<MemSink, AllocError>
        requires some { 0 < chunk }
        ensures empty { IfOk result (λ sink. sink ≡ record {
          written = [];
          chunk = chunk;
          failing = failing.items;
          calls = 0;
          fault_count = 0;
        }) }
    {
        Ok(MemSink {
            written: Vec::with_capacity(alloc, ROOM)?,
            chunk,
            failing,
            calls: 0,
            faults: 0,
        })
    }

    /// The bytes that were written.
    pub fn written(&self) -> &[u8]
        ensures bytes { result.now ≡ self.now.written }
    {
        &self.written
    }

    // Whether the next call fails.
    fn refuses(&self, piece: &[u8]) -> bool
        ensures refuses { IsTrue result ↔ Refuses self.now piece.now }
    {
        if self.failing.contains(&self.calls) {
            return true;
        }
        self.written.len() == ROOM && !piece.is_empty()
    }
}

impl Sink for MemSink {
    ghost written = { λ s. Some s.written };

    ghost fault_count = { λ s. s.fault_count };

    fn write_some(&mut self, piece: &[u8]) -> Result<usize, Failed>
        // What each call does.
        ensures fails { IsErr result ↔ Refuses self.old piece.now }
        ensures accepted { IfOk result (λ n. n ≡ accepted self.old (length piece.now)) }
        ensures after { self.new ≡ after_write self.old piece.now result }

        // What any sink promises.
        ensures within { WritesAtMost result piece.now }
        ensures bytes { WriteAppends (Some self.old.written) (Some self.new.written) result
            piece.now }
        ensures kept { self.old.fault_count ≤ self.new.fault_count }
        ensures cause { OnErr result (Rose self.old.fault_count self.new.fault_count) }
        ensures none_taken { IfOk result (λ n. n ≡ 0 → 0 < length piece.now
            → Rose self.old.fault_count self.new.fault_count) }
    {
        let is_refused = self.refuses(piece);
        self.calls = self.calls.saturating_add(1);
        if is_refused {
            self.faults = self.faults.saturating_add(1);
            return Err(Failed);
        }
        let count = piece.len().min(self.chunk).min(ROOM - self.written.len());
        self.written.extend_from_slice(&piece[..count]).unwrap();
        Ok(count)
    }

    fn faults(&self) -> u64 {
        self.faults
    }
}
