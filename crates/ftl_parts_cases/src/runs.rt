// Whole works. Each line is a way, a number and how often, as `workers 64 50`:
//
// - `alone`: on plain words; `workers N`: by a stage of N workers;
// - `meeting N`: by two workers, of which the first that begins an item from N on waits until the
//   other begins one too;
// - `rounds N`: by one hand that goes over the items N times; `turns`: by three hands in turns;
//   `threads`: by two threads.
//
// Printed are the words of the cells, once where they are the same each time.
use crate::meeting::Meeting;
use crate::printing::{write_new, write_words};
use crate::requests::{Request, request_in};
use crate::turns::{by_rounds, by_turns, by_two_threads};
use ftl_cells::Cells;
use ftl_edge::{Gate, OpenGate};
use ftl_replay::Example;
use ftl_steal::{run_alone, run_stage};
use std::alloc::{AllocError, Global};
use std::fmt::Write;
use std::sync::Wait;
use std::thread::Threads;

/// Tells each line.
pub(crate) fn write_work<R: Threads + Wait + Sync, W: Example + Drop>(
    rt: &R,
    alloc: Global,
    out: &mut String,
    work: &W,
    lines: &str,
) -> Result<(), AllocError> {
    for line in lines.lines() {
        writeln!(out, "{line}:")?;
        write_times(rt, alloc, out, work, request_in(line))?;
    }
    Ok(())
}

fn write_times<R: Threads + Wait + Sync, W: Example + Drop>(
    rt: &R,
    alloc: Global,
    out: &mut String,
    work: &W,
    asked: Request<'_>,
) -> Result<(), AllocError> {
    let mut shown = String::new(alloc);
    for _ in 0..asked.second {
        let words = run(rt, alloc, work.again(), asked)?;
        shown = write_new(out, shown, words)?;
    }
    Ok(())
}

fn run<R: Threads + Wait + Sync, W: Example + Drop>(
    rt: &R,
    alloc: Global,
    work: W,
    asked: Request<'_>,
) -> Result<String, AllocError> {
    match asked.verb {
        "alone" => alone(alloc, work),
        "workers" => by_workers(rt, alloc, work, asked.first, &OpenGate),
        "meeting" => by_meeting(rt, alloc, work, asked.first),
        "rounds" => by_rounds(alloc, work, asked.first),
        "turns" => by_turns(alloc, work),
        "threads" => by_two_threads(rt, alloc, work),
        _ => String::from_str(alloc, " no such way"),
    }
}

fn alone<W: Example + Drop>(alloc: Global, work: W) -> Result<String, AllocError> {
    let words = run_alone(alloc, &work, work.first(alloc)?)?;
    let mut out = String::new(alloc);
    write_words(&mut out, words.as_slice())?;
    Ok(out)
}

/// Opens cells, runs the stage by 1 to 64 workers, and closes them.
fn by_workers<R: Threads + Wait + Sync, W: Example + Drop, G: Gate>(
    rt: &R,
    alloc: Global,
    work: W,
    workers: u32,
    gate: &G,
) -> Result<String, AllocError> {
    let first = work.first(alloc)?;
    let (cells, hand) = Cells::open(alloc, work, first)?;
    let hand = run_stage(rt, alloc, &cells, hand, workers.clamp(1, 64), gate)?;
    let words = cells.close(hand);
    let mut out = String::new(alloc);
    write_words(&mut out, words.as_slice())?;
    Ok(out)
}

/// By two workers, and whether both began an item from this one on.
fn by_meeting<R: Threads + Wait + Sync, W: Example + Drop>(
    rt: &R,
    alloc: Global,
    work: W,
    from: u32,
) -> Result<String, AllocError> {
    let meeting = Meeting::new(from);
    let mut out = by_workers(rt, alloc, work, 2, &meeting)?;
    write!(out, ", both came: {}", meeting.both_came())?;
    Ok(out)
}
