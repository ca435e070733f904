// Pools of items that are ready, and the row of flags.
use crate::requests::{number, request_in};
use ftl_pool::{FlagPool, FlagRow, ReadyPool, StealPool};
use std::alloc::{AllocError, Global};
use std::fmt::Write;
use std::sync::Wait;

/// A row of so many flags; each line says `raise N` or `lower`. What was lowered is printed.
pub(crate) fn write_flags(
    alloc: Global,
    out: &mut String,
    count: &str,
    lines: &str,
) -> Result<(), AllocError> {
    let mut row = FlagRow::new(alloc, number(count))?;
    writeln!(out, "{} flags", row.items())?;
    for line in lines.lines() {
        write_flag(out, &mut row, line)?;
    }
    Ok(())
}

fn write_flag(out: &mut String, row: &mut FlagRow, line: &str) -> Result<(), AllocError> {
    let asked = request_in(line);
    if asked.verb == "raise" && asked.first < row.items() {
        row.raise(asked.first);
        writeln!(out, "{line}")
    } else {
        writeln!(out, "{line}: {:?}", row.lower())
    }
}

/// What the one hold of a pool of flags takes, after items 3 and 1 were put.
pub(crate) fn write_flag_pool<R: Wait>(
    rt: &R,
    alloc: Global,
    out: &mut String,
) -> Result<(), AllocError> {
    let (pool, mut holds) = FlagPool::new(alloc, 1, 4)?;
    let count = holds.len();
    let hold = &mut holds[0];
    pool.put(rt, hold, 3);
    pool.put(rt, hold, 1);
    let taken = [
        pool.take(rt, hold),
        pool.take(rt, hold),
        pool.take(rt, hold),
    ];
    writeln!(out, "{count} hold: {taken:?}")
}

/// What the second of two holds of a pool of deques takes, then the first, through which items 3
/// and 1 were put, then the second.
pub(crate) fn write_two_holds<R: Wait>(
    rt: &R,
    alloc: Global,
    out: &mut String,
) -> Result<(), AllocError> {
    let (pool, mut holds) = StealPool::new(alloc, 2, 4)?;
    pool.put(rt, &mut holds[0], 3);
    pool.put(rt, &mut holds[0], 1);
    let taken = [
        pool.take(rt, &mut holds[1]),
        pool.take(rt, &mut holds[0]),
        pool.take(rt, &mut holds[1]),
    ];
    writeln!(out, "{} holds: {taken:?}", holds.len())
}

/// What each of three holds takes, if it alone does, after items 5, 4 and 0 were put, one through
/// each: from its own deque first, and then from those of the next holds.
pub(crate) fn write_three_holds<R: Wait>(
    rt: &R,
    alloc: Global,
    out: &mut String,
) -> Result<(), AllocError> {
    for taker in 0..3 {
        let (pool, mut holds) = StealPool::new(alloc, 3, 6)?;
        pool.put(rt, &mut holds[0], 5);
        pool.put(rt, &mut holds[1], 4);
        pool.put(rt, &mut holds[2], 0);
        let hold = &mut holds[taker];
        let taken = [
            pool.take(rt, hold),
            pool.take(rt, hold),
            pool.take(rt, hold),
            pool.take(rt, hold),
        ];
        writeln!(out, "3 holds, all by hold {taker}: {taken:?}")?;
    }
    Ok(())
}
