//! Sources, sinks and a runtime that go wrong.
ghost use Rattle.std.specs.Prelude.{None};

use ftl_edge::{Failed, Sink, Source};
use std::alloc::Allocator;
use std::fmt::Display;
use std::io;
use std::io::{BufRead, Input, Read};

// A sink that takes nothing, and counts that as a fault.
#[derive(Drop)]
pub(super) struct Stuck {
    pub(super) faults: u64,
}

impl Sink for Stuck {
    ghost written = { λ _. None };

    ghost fault_count = { λ s. s.faults };

    fn write_some(&mut self, _piece: &[u8]) -> Result<usize, Failed> {
        self.faults = self.faults.saturating_add(1);
        Ok(0)
    }

    fn faults(&self) -> u64 {
        self.faults
    }
}

// A source that never ends and doesn't fail.
#[derive(Drop)]
pub(super) struct Endless {
    pub(super) calls: u64,
    pub(super) taken: u64,
}

impl Source for Endless {
    ghost remaining = { λ _. None };

    ghost fault_count = { λ _. 0 };

    ghost taken = { λ s. s.taken };

    ghost calls = { λ s. s.calls };

    ghost never_ends = { λ _. Unit {0} };

    fn read_some(&mut self, room: &mut [u8]) -> Result<usize, Failed> {
        self.calls = self.calls.saturating_add(1);
        self.taken = self.taken.saturating_add(room.len() as u64);
        Ok(room.len())
    }

    fn faults(&self) -> u64 {
        0
    }
}

// A runtime whose input fails at its second read, and whose output is closed.
#[derive(Clone, Copy)]
pub(super) struct Broken;

#[derive(Drop)]
pub(super) struct BrokenInput {
    reads: u8,
}

impl Read for BrokenInput {
    fn read(&mut self, room: &mut [u8]) -> io::Result<usize> {
        self.reads = self.reads.saturating_add(1);
        if self.reads == 2 {
            return Err(io::Error::from(io::ErrorKind::Other));
        }
        Ok(room.len().min(3))
    }
}

impl BufRead for BrokenInput {
    fn fill_buf(&mut self) -> io::Result<&[u8]> {
        Ok(&[])
    }

    fn consume(&mut self, _amount: usize) {}
}

impl Input for Broken {
    type Reader = BrokenInput;

    fn read_line<A: Allocator + Clone>(&self, buf: &mut String<A>) -> io::Result<usize> {
        self.reader().read_line(buf)
    }

    fn lines<A: Allocator>(&self, alloc: A) -> io::Lines<BrokenInput, A> {
        self.reader().lines(alloc)
    }

    fn reader(&self) -> BrokenInput {
        BrokenInput { reads: 0 }
    }
}

impl Print for Broken {
    fn print<D: Display + Drop>(&self, _value: D) -> io::Result<()> {
        Ok(())
    }

    fn println<D: Display + Drop>(&self, _value: D) -> io::Result<()> {
        Ok(())
    }

    fn write_all(&self, _bytes: &[u8]) -> io::Result<()> {
        Err(io::Error::from(io::ErrorKind::BrokenPipe))
    }
}
