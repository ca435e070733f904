//! Prints what is known of the grammars and documents on standard input. Each case begins by a line
//! with `%`, what is wanted and a title (`src/cases.rt`). A title `grammar` and a name is that of a
//! shipped grammar; below any other title stands a grammar's text. Wanted are:
//!
//! - `found`: what the names below, a line each, are found to be;
//! - `names`, `rules`, `whole`: the attributes, the rules, or all of it by number;
//! - `schedules`: the canonical texts of the schedules below (`src/schedules.rt`);
//! - `narrow`, `wide`: the answers to requests on code and visits (`src/requests.rt`), by width;
//! - `places`: the places of steps;
//! - `document`: the tree of a document, or its refusal line (`src/documents.rt`);
//! - `syntax`: which of the rows below are answered otherwise than they say, and how many rows
//!   there are (`src/syntax/rows.rt`).
//!
//! An empty line stands between a text and the requests on it.
#![tactic(auto)]

mod answers;
mod cases;
mod code;
mod documents;
mod found;
mod names;
mod nests;
mod numbers;
mod places;
mod reads;
mod repeated;
mod requests;
mod runs;
mod schedules;
mod syntax;
mod visits;

use cases::write_cases;
use ftl_edge::{StdSource, read_all};
use std::alloc::{AllocError, Global};
use std::io;

/// The most bytes of all cases.
const MAX_TEXT: usize = 1048576;

/// What is wanted of the cases on standard input.
fn write_report(rt: &impl Input, alloc: Global, out: &mut String) -> Result<(), AllocError> {
    let mut source = StdSource::new(rt);
    match read_all(alloc, &mut source, MAX_TEXT) {
        Ok(bytes) => write_of_bytes(alloc, out, bytes.as_slice()),
        Err(_) => out.push_str("not read\n"),
    }
}

fn write_of_bytes(alloc: Global, out: &mut String, bytes: &[u8]) -> Result<(), AllocError> {
    match str::from_utf8(bytes) {
        Ok(text) => write_cases(alloc, out, text),
        Err(_) => out.push_str("no text\n"),
    }
}

fn main(rt: HostRuntime) -> io::Result<()> {
    let mut out = String::new(rt.alloc());
    write_report(&rt, rt.alloc(), &mut out)?;
    print!(rt; "{out}")
}
