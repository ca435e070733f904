//! Prints what becomes of the texts on standard input: their tokens and numbers, the documents that
//! they are, and the grammars that they spell, printed. `src/cases.rt` says what a line asks.
#![tactic(auto)]

mod cases;
mod document;
mod grammar;
mod line;
mod plain;
mod tokens;

use cases::write_cases;
use ftl_edge::{StdSource, read_all};
use std::alloc::{AllocError, Global};
use std::io;

/// The most bytes of all lines.
const MOST_BYTES: usize = 1048576;

/// The lines on standard input, each with its answer.
fn write_answers(rt: &impl Input, alloc: Global, out: &mut String) -> Result<(), AllocError> {
    let mut source = StdSource::new(rt);
    match read_all(alloc, &mut source, MOST_BYTES) {
        Ok(bytes) => write_of_bytes(alloc, out, bytes.as_slice()),
        Err(_) => out.push_str("not read\n"),
    }
}

fn write_of_bytes(alloc: Global, out: &mut String, bytes: &[u8]) -> Result<(), AllocError> {
    match str::from_utf8(bytes) {
        Ok(lines) => write_cases(alloc, out, lines),
        Err(_) => out.push_str("no text\n"),
    }
}

fn main(rt: HostRuntime) -> io::Result<()> {
    let mut out = String::new(rt.alloc());
    write_answers(&rt, rt.alloc(), &mut out)?;
    print!(rt; "{out}")
}
