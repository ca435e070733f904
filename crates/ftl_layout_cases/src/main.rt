//! Prints what the program answers to words and pages in memory. Each case on standard input begins
//! by a line with `===` and the words, below which stands the page. Before the words may stand
//! `sink N` or `source N`, where that call of the sink or the source fails, `spaces N`, where the
//! page is so many spaces, `byte N`, where it is that byte, `padded N`, where spaces follow the
//! page up to so many bytes, `chains N`, where it is a column of so many chains of columns, or
//! `brief`. A line of a page that begins with `*N` and a space stands there N times. Printed is the
//! line, the text that was written, and the status, of a page of chains and with `brief` the number
//! of lines with the first and the last two; and where one thread alone answers otherwise than the
//! workers that the words ask for, what it answers. Before the cases stands what gates saw of the
//! workers, and which numbers of workers and grains agree with one thread.
#![tactic(auto)]

mod agreeing;
mod case;
mod gates;

use agreeing::print_agreeing;
use case::Case;
use ftl_edge::{MemSink, MemSource, OpenGate, StdSource, read_all};
use ftl_run::{Status, layout_alone, layout_top};
use gates::print_gates;
use std::alloc::{AllocError, Global};
use std::fmt::Write;
use std::io;
use std::sync::Wait;
use std::thread::Threads;

/// The most bytes of all cases.
const MAX_TEXT: usize = 1048576;

/// How many bytes a call of the source gives at most.
const READ_BYTES: usize = 65536;

/// How many bytes a call of the sink takes at most.
const WRITE_BYTES: usize = 16;

/// What stands on standard input; none where that is no text.
fn read_text(rt: &impl Input, alloc: Global) -> Option<String> {
    let mut source = StdSource::new(rt);
    let bytes = read_all(alloc, &mut source, MAX_TEXT).ok()?;
    String::from_utf8(bytes).ok()
}

/// The text that was written, and the status.
fn printed(alloc: Global, sink: &MemSink, status: Status) -> Result<String, AllocError> {
    let written = Vec::from_slice(alloc, sink.written())?;
    let mut out = String::from_utf8(written).unwrap_or(String::new(alloc));
    writeln!(out, "status {}", status.0)?;
    Ok(out)
}

/// The source of a case.
fn source_of(alloc: Global, case: &Case) -> Result<MemSource, AllocError> {
    let page = Vec::from_slice(alloc, case.page.as_slice())?;
    let failing = Vec::from_slice(alloc, case.failing_reads.as_slice())?;
    Ok(MemSource::new(page, READ_BYTES, failing))
}

/// The sink of a case.
fn sink_of(alloc: Global, case: &Case) -> Result<MemSink, AllocError> {
    let failing = Vec::from_slice(alloc, case.failing_writes.as_slice())?;
    MemSink::new(alloc, WRITE_BYTES, failing)
}

/// What is written in a case, and its status.
pub(crate) fn answer<R: Threads + Wait + Sync>(
    rt: &R,
    alloc: Global,
    case: &Case,
) -> Result<String, AllocError> {
    let (mut source, mut sink) = (source_of(alloc, case)?, sink_of(alloc, case)?);
    let words = case.words.as_slice();
    let status = layout_top(rt, alloc, words, &mut source, &mut sink, &OpenGate);
    printed(alloc, &sink, status)
}

/// The same by one thread alone.
pub(crate) fn answer_alone(alloc: Global, case: &Case) -> Result<String, AllocError> {
    let (mut source, mut sink) = (source_of(alloc, case)?, sink_of(alloc, case)?);
    let status = layout_alone(alloc, case.words.as_slice(), &mut source, &mut sink);
    printed(alloc, &sink, status)
}

/// What of an answer is shown in a case.
fn shown(alloc: Global, case: &Case, answer: String) -> Result<String, AllocError> {
    if !case.brief {
        return Ok(answer);
    }
    let mut out = String::new(alloc);
    let lines = answer.as_str().lines().count();
    writeln!(out, "{lines} lines")?;
    for (at, line) in answer.as_str().lines().enumerate() {
        if at == 0 || at.saturating_add(2) >= lines {
            writeln!(out, "{line}")?;
        }
    }
    Ok(out)
}

fn main(rt: HostRuntime) -> io::Result<()> {
    let Some(text) = read_text(&rt, rt.alloc()) else {
        println!(rt; "no text")?;
        return Ok(());
    };
    print_gates(&rt)?;
    print_agreeing(&rt)?;
    for case in text.as_str().split("=== ").skip(1) {
        let (heading, page) = case.split_once('\n').unwrap_or((case, ""));
        let case = Case::new(rt.alloc(), heading, page)?;
        let answer = answer(&rt, rt.alloc(), &case)?;
        let alone = answer_alone(rt.alloc(), &case)?;
        let same = alone.as_str() == answer.as_str();
        print!(rt; "=== {heading}\n{}", shown(rt.alloc(), &case, answer)?)?;
        if !same {
            print!(rt; "alone {alone}")?;
        }
    }
    Ok(())
}
