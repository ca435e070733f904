//! The sample page of each grammar, by different numbers of workers and different grains. Each has
//! more cells than a stage that is shared cell by cell.

use crate::case::Case;
use crate::{answer, answer_alone};
use std::alloc::{AllocError, Global};
use std::fmt::Write;
use std::io;
use std::sync::Wait;
use std::thread::Threads;

const GRAMMARS: [&str; 6] = ["block", "flow", "float", "inline", "stack", "table"];

const WORKERS: [&str; 5] = ["1", "2", "3", "8", "64"];

const GRAINS: [&str; 4] = ["1", "64", "1000", "1048576"];

/// The sample page of a grammar, by so many workers and with this grain.
fn sample_of(alloc: Global, grammar: &str, workers: &str, grain: &str) -> Result<Case, AllocError> {
    let mut words = String::new(alloc);
    write!(
        words,
        "sample 700 --grammar {grammar} --workers {workers} --grain {grain}"
    )?;
    Case::new(alloc, words.as_str(), "")
}

/// How many grains lead so many workers to this text.
fn agreeing_grains<R: Threads + Wait + Sync>(
    rt: &R,
    alloc: Global,
    grammar: &str,
    workers: &str,
    text: &str,
) -> Result<u64, AllocError> {
    let mut same: u64 = 0;
    for grain in GRAINS {
        let sample = sample_of(alloc, grammar, workers, grain)?;
        if answer(rt, alloc, &sample)?.as_str() == text {
            same = same.saturating_add(1);
        }
    }
    Ok(same)
}

/// How many numbers of workers and grains lead to the text of one thread.
fn agreeing<R: Threads + Wait + Sync>(
    rt: &R,
    alloc: Global,
    grammar: &str,
) -> Result<u64, AllocError> {
    let text = answer_alone(alloc, &sample_of(alloc, grammar, "1", "64")?)?;
    let mut same: u64 = 0;
    for workers in WORKERS {
        let more = agreeing_grains(rt, alloc, grammar, workers, text.as_str())?;
        same = same.saturating_add(more);
    }
    Ok(same)
}

/// Prints for each grammar how many numbers of workers and grains lead to the text of one thread.
pub(crate) fn print_agreeing<R: Threads + Wait + Sync + Print + AllocGlobal>(
    rt: &R,
) -> io::Result<()> {
    for grammar in GRAMMARS {
        let same = agreeing(rt, rt.alloc(), grammar)?;
        println!(rt; "{grammar}: {same} of 20 texts are that of one thread")?;
    }
    Ok(())
}
