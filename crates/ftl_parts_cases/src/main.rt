//! Prints what the parts below the grammar answer to the cases on standard input. Each case begins
//! by a line with `%` and a title, whose first word says what it is on:
//!
//! - `rows`, `matrix`: bits. See `src/bits.rt`.
//! - `flags`, `pools`: pools of items that are ready. See `src/pools.rt`.
//! - `calls`: calls on the cells of the diamond, and their replay. See `src/calls.rt`.
//! - `lists`: the lists of a replayed state. See `src/lists.rt`.
//! - `walks WORK`: calls that are drawn, and their replay. See `src/walks.rt`.
//! - `runs WORK`: whole works, by hands in turns and by threads. See `src/runs.rt`.
//!
//! A work is `diamond`, `chain N`, `ladder N`, `star`, `eight` or `lent N..`.
#![tactic(auto)]

mod agree;
mod bits;
mod calls;
mod hands;
mod lists;
mod meeting;
mod pools;
mod printing;
mod random;
mod requests;
mod runs;
mod take;
mod turns;
mod walks;
mod works;

use ftl_edge::{StdSource, read_all};
use std::alloc::{AllocError, Global};
use std::io;
use std::sync::Wait;
use std::thread::Threads;

/// The most bytes of all cases.
const MAX_TEXT: usize = 1048576;

/// What stands on standard input; none where that is no text.
fn read_text(rt: &impl Input, alloc: Global) -> Option<String> {
    let mut source = StdSource::new(rt);
    let bytes = read_all(alloc, &mut source, MAX_TEXT).ok()?;
    String::from_utf8(bytes).ok()
}

/// The answers to a case.
fn answers<R: Threads + Wait + Sync>(
    rt: &R,
    alloc: Global,
    title: &str,
    body: &str,
) -> Result<String, AllocError> {
    let mut out = String::new(alloc);
    let (kind, rest) = title.split_once(' ').unwrap_or((title, ""));
    match kind {
        "rows" => bits::write_rows(&mut out, body)?,
        "matrix" => bits::write_matrix(alloc, &mut out, rest, body)?,
        "flags" => pools::write_flags(alloc, &mut out, rest, body)?,
        "pools" => {
            pools::write_flag_pool(rt, alloc, &mut out)?;
            pools::write_two_holds(rt, alloc, &mut out)?;
            pools::write_three_holds(rt, alloc, &mut out)?;
        }
        "calls" => calls::write_calls(alloc, &mut out, body)?,
        "lists" => lists::write_lists(alloc, &mut out)?,
        "walks" => works::write_walks(alloc, &mut out, rest, body)?,
        "runs" => works::write_runs(rt, alloc, &mut out, rest, body)?,
        _ => out.push_str("no such case\n")?,
    }
    Ok(out)
}

fn main(rt: HostRuntime) -> io::Result<()> {
    let Some(text) = read_text(&rt, rt.alloc()) else {
        println!(rt; "no text")?;
        return Ok(());
    };
    for case in text.as_str().split('%').skip(1) {
        let (title, body) = case.split_once('\n').unwrap_or((case, ""));
        println!(rt; "%{title}")?;
        print!(rt; "{}", answers(&rt, rt.alloc(), title, body)?)?;
    }
    Ok(())
}
