// The works by their names.
use crate::requests::number;
use crate::runs::write_work;
use crate::walks::write_walks_of;
use ftl_cells::Diamond;
use ftl_replay::{Chain, EightAlone, Ladder, Lent, Star};
use std::alloc::{AllocError, Global};
use std::sync::Wait;
use std::thread::Threads;

/// Tells runs of the work.
pub(crate) fn write_runs<R: Threads + Wait + Sync>(
    rt: &R,
    alloc: Global,
    out: &mut String,
    work: &str,
    lines: &str,
) -> Result<(), AllocError> {
    let (name, numbers) = work.split_once(' ').unwrap_or((work, ""));
    match name {
        "diamond" => write_work(rt, alloc, out, &Diamond, lines),
        "chain" => write_work(rt, alloc, out, &chain(numbers), lines),
        "star" => write_work(rt, alloc, out, &Star, lines),
        "eight" => write_work(rt, alloc, out, &EightAlone, lines),
        "lent" => write_lent(rt, alloc, out, numbers, lines),
        _ => out.push_str("no such work\n"),
    }
}

/// A chain of so many items.
fn chain(items: &str) -> Chain {
    let items = number(items).min(65535) as u16;
    Chain { items }
}

/// Tells runs of items that fill cells with these numbers.
fn write_lent<R: Threads + Wait + Sync>(
    rt: &R,
    alloc: Global,
    out: &mut String,
    numbers: &str,
    lines: &str,
) -> Result<(), AllocError> {
    let bytes = bytes_of(alloc, numbers)?;
    match Lent::new(bytes.as_slice()) {
        Some(lent) => write_work(rt, alloc, out, &lent, lines),
        None => out.push_str("too many numbers\n"),
    }
}

fn bytes_of(alloc: Global, numbers: &str) -> Result<Vec<u8>, AllocError> {
    let mut bytes = Vec::new(alloc);
    for word in numbers.split_whitespace() {
        bytes.push(number(word).min(255) as u8)?;
    }
    Ok(bytes)
}

/// Tells walks of the work.
pub(crate) fn write_walks(
    alloc: Global,
    out: &mut String,
    work: &str,
    lines: &str,
) -> Result<(), AllocError> {
    let (name, numbers) = work.split_once(' ').unwrap_or((work, ""));
    match name {
        "diamond" => write_walks_of(alloc, out, &Diamond, lines),
        "ladder" => write_walks_of(alloc, out, &ladder(numbers), lines),
        _ => out.push_str("no such work\n"),
    }
}

/// Two chains of so many items together.
fn ladder(items: &str) -> Ladder {
    let items = number(items).min(255) as u8;
    Ladder { items }
}
