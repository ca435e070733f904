//! Standard input and output, the trusted edge: they tell nothing of their bytes, and count.
//!
//! A program makes both from its runtime: `StdSource::new(&rt)` and `StdSink::new(&rt)`.
ghost use Rattle.std.specs.Prelude.{◌≡◌, None};
ghost use Rattle.ftl_edge.specs.Counts.{SourceCounts};

use crate::{Failed, Sink, Source};
use std::io::{Input, Print, Read};
use std::marker::Model;

/// Standard input. A call reads once, straight into the room, and tries nothing again.
#[derive(Drop)]
pub struct StdSource<R: Input> {
    reader: R::Reader,
    calls: u64,
    taken: u64,
    faults: u64,
}

impl<R: Input> Model for StdSource<R> {
    ghost Value = { SourceCounts };

    ghost view = { λ s. record { calls = s.calls; taken = s.taken; fault_count = s.faults } };
}

impl<R: Input> StdSource<R> {
    /// The standard input of this runtime, of which nothing was read.
    pub fn new(rt: &R) -> StdSource<R>
        ensures unread { result ≡ record { calls = 0; taken = 0; fault_count = 0 } }
    {
        StdSource {
            reader: rt.reader(),
            calls: 0,
            taken: 0,
            faults: 0,
        }
    }
}

impl<R: Input> Source for StdSource<R> {
    ghost remaining = { λ _. None };

    ghost fault_count = { λ s. s.fault_count };

    ghost taken = { λ s. s.taken };

    ghost calls = { λ s. s.calls };

    fn read_some(&mut self, room: &mut [u8]) -> Result<usize, Failed> {
        self.calls = self.calls.saturating_add(1);
        match self.reader.read(room) {
            Ok(count) => {
                self.taken = self.taken.saturating_add(count as u64);
                Ok(count)
            }
            Err(_) => {
                self.faults = self.faults.saturating_add(1);
                Err(Failed)
            }
        }
    }

    fn faults(&self) -> u64 {
        self.faults
    }
}

/// Standard output. A call writes once, and what it took is out of the process.
#[derive(Drop)]
pub struct StdSink<'a, R: Print> {
    rt: &'a R,
    faults: u64,
}

impl<'a, R: Print> Model for StdSink<'a, R> {
    ghost use Rattle.std.specs.Prelude.{ℕ};

    ghost Value = { ℕ };

    ghost view = { λ s. s.faults };
}

impl<'a, R: Print> StdSink<'a, R> {
    /// The standard output of this runtime, to which nothing was written.
    pub fn new(rt: &'a R) -> StdSink<'a, R>
        ensures unwritten { result ≡ 0 }
    {
        StdSink { rt, faults: 0 }
    }
}

impl<'a, R: Print> Sink for StdSink<'a, R> {
    ghost written = { λ _. None };

    ghost fault_count = { λ faults. faults };

    fn write_some(&mut self, piece: &[u8]) -> Result<usize, Failed> {
        match self.rt.write_some(piece) {
            Ok(count) if count > 0 || piece.is_empty() => Ok(count),
            _ => {
                self.faults = self.faults.saturating_add(1);
                Err(Failed)
            }
        }
    }

    fn faults(&self) -> u64 {
        self.faults
    }
}
