//! The lots of a work, by workers.
ghost use Rattle.std.specs.Prelude.{◌≡◌, ℕ, ◌^◌, ◌<◌, ◌≤◌, vec_len, IfOk};
ghost use Rattle.ftl_lots.specs.table.Lots.{AreBegunFrom, AreFilledFrom, lot_total};

use crate::table::{FillLots, Lots};
use crate::work::LotWork;
use ftl_cells::Cells;
use ftl_edge::Gate;
use ftl_steal::run_stage;
use std::alloc::{AllocError, Global};
use std::sync::Wait;
use std::thread::Threads;

/// The parts of all lots, each filled by one of so many workers.
pub(crate) fn filled_parts<R: Threads + Wait + Sync, F: FillLots + Sync, G: Gate>(
    rt: &R,
    alloc: Global,
    filler: &F,
    parts: Vec<Vec<u64>>,
    workers: u32,
    gate: &G,
) -> Result<Vec<Vec<u64>>, AllocError>
    requires count { vec_len parts ≡ lot_total (F.wanted filler.now) }
    requires begun { AreBegunFrom (F.wanted filler.now) 0 parts.items }
    requires some { 0 < workers }
    requires few { workers ≤ 64 }
    ensures count { IfOk result (λ v. vec_len v ≡ lot_total (F.wanted filler.now)) }
    ensures filled { IfOk result (λ v. AreFilledFrom (F.wanted filler.now) 0 v.items) }
{
    let lots = Lots::new(alloc, filler, parts)?;
    fill_lots(rt, alloc, &lots, filler, workers, gate)?;
    taken_parts(rt, alloc, &lots, filler.lot_count())
}

/// Opens a stage whose items are the lots, runs it by so many workers, and closes it.
fn fill_lots<R: Threads + Wait + Sync, F: FillLots + Sync, G: Gate>(
    rt: &R,
    alloc: Global,
    lots: &Lots<F>,
    filler: &F,
    workers: u32,
    gate: &G,
) -> Result<(), AllocError>
    requires of { F.wanted filler.now ≡ lots.now.1 }
    requires some { 0 < workers }
    requires few { workers ≤ 64 }
{
    let work = LotWork { lots, filler };
    let (cells, hand) = Cells::open(alloc, work, Vec::new(alloc))?;
    let hand = run_stage(rt, alloc, &cells, hand, workers, gate)?;
    drop(cells.close(hand));
    Ok(())
}

/// The parts of all lots, after it waited for each to be filled.
fn taken_parts<R: Wait, F: FillLots>(
    rt: &R,
    alloc: Global,
    lots: &Lots<F>,
    count: u32,
) -> Result<Vec<Vec<u64>>, AllocError>
    requires count { lot_total lots.now.1 ≡ count }
    ensures count { IfOk result (λ v. vec_len v ≡ count) }
    ensures filled { IfOk result (λ v. AreFilledFrom lots.now.1 0 v.items) }
{
    let mut parts = Vec::with_capacity(alloc, count as usize)?;
    for lot in 0..count {
        parts.push(lots.filled(rt, alloc, lot))?;
    }
    Ok(parts)
}
