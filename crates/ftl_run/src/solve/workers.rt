//! All stages of a plan, one after the other, each by workers.
ghost use Rattle.std.specs.Prelude.{◌≡◌, ◌<◌, ◌≤◌, IfOk, Some};
ghost use Rattle.ftl_cells.specs.shared.State.{AreFirst, AreLast};
ghost use Rattle.ftl_deps.specs.reads.Meant.{meant};
ghost use Rattle.ftl_items.specs.stage_items.WordLaws.{HoldTheSolution};
ghost use Rattle.ftl_items.specs.solution.Solution.{solution};
ghost use Rattle.ftl_cells.specs.work_phases.Phases.{CanTake};
ghost use Rattle.ftl_lots.specs.filling.Blocks.{AreIdle};
ghost use Rattle.ftl_plan.specs.declared.plans.phases.ItemPhases.{ItemPhases};

use ftl_cells::{Cells, Work};
use ftl_edge::Gate;
use ftl_lots::{CellWords, ItemBlocks, run_lots};
use ftl_plan::{ItemPhases, Plan, solve_alone};
use ftl_steal::{run_alone, run_stage};
use std::alloc::{AllocError, Global};
use std::sync::Wait;
use std::thread::Threads;

/// The words of the solution, one for each cell. A stage is run by so many workers, or by fewer
/// where it has fewer items, or fewer blocks of items with steps. One worker is the calling thread, also of a stage of one item, as an
/// inorder pass is: it starts no other, shares no cells and calls no gate.
pub fn solve<R: Threads + Wait + Sync, G: Gate>(
    rt: &R,
    alloc: Global,
    plan: &Plan<'_>,
    workers: u32,
    gate: &G,
) -> Result<Vec<u64>, AllocError>
    requires some { 0 < workers }
    requires few { workers ≤ 64 }
    ensures solution { IfOk result (λ v. HoldTheSolution
        (solution (meant plan.now.checked) plan.now.tree) v.items) }
{
    if workers == 1 {
        return solve_alone(alloc, plan);
    }
    plan.words_fit();
    let filling = plan.filling_stages(alloc)?;
    let count = lot_count(plan.node_count(), plan.cell_count(), workers);
    let mut words = CellWords::in_a_row(plan.first_words(alloc)?, Vec::new(alloc));
    let mut kept = Vec::new(alloc);
    for stage in 0..plan.stage_count() {
        if filling[stage as usize] {
            let work = plan.stage(stage);
            let place = work.phases(alloc, count, &mut kept)?;
            let lots = &kept[place].lots;
            let blocks = work.blocks(lots);
            let fewer = worker_count(blocks, workers);
            words = words_after(rt, alloc, work, lots, blocks, words, fewer, gate)?;
        }
    }
    let (row, _parts) = words.into_row(rt);
    Ok(row)
}

// So many lots for each worker, so that those who are done early find more to take.
const LOTS_EACH: u32 = 8;

// A lot of fewer cells costs more to take than it helps.
const FEWEST_CELLS: u32 = 4096;

// A pass visits each node once, and to start a thread takes as long as some hundred visits. No
// more workers run than there are lots.
const FEWEST_NODES: u32 = 1024;

/// Into how many lots the cells are cut where there are so many nodes and cells: two at least.
fn lot_count(nodes: u32, cells: u32, workers: u32) -> u32
    requires few { workers ≤ 64 }
    ensures some { 0 < result }
{
    let most = (nodes / FEWEST_NODES).min(cells / FEWEST_CELLS);
    (LOTS_EACH * workers).min(most).max(2)
}

/// By how many workers to run a stage: by so many, or by fewer where fewer blocks of its items have
/// steps.
fn worker_count(blocks: ItemBlocks<'_>, workers: u32) -> u32
    requires some { 0 < workers }
    ensures some { 0 < result }
    ensures few { result ≤ workers }
{
    if blocks.sets.is_empty() {
        return workers;
    }
    let mut busy = 0;
    for set in blocks.sets {
        if *set & blocks.wanted != 0 {
            busy += 1;
        }
        if busy == workers {
            return workers;
        }
    }
    busy.max(1)
}

/// The words after a work, from those that fit it. An item by itself is computed by the calling
/// thread on the words as they are. Elsewhere workers share cells and take items from each other:
/// those of the work, or where the items have phases lots of them. Lots pass over blocks of items
/// without steps.
fn words_after<R: Threads + Wait + Sync, W: Work + Drop, G: Gate>(
    rt: &R,
    alloc: Global,
    work: W,
    lots: &Option<ItemPhases>,
    blocks: ItemBlocks<'_>,
    words: CellWords,
    workers: u32,
    gate: &G,
) -> Result<CellWords, AllocError>
    requires first { AreFirst (W.meaning work) words }
    requires phases { (l : ItemPhases) → lots.now ≡ Some l → CanTake (W.meaning work) l.phases }
    requires idle { AreIdle (W.meaning work) blocks }
    requires some { 0 < workers }
    requires few { workers ≤ 64 }
    ensures last { IfOk result (AreLast (W.meaning work)) }
{
    if work.items() < 2 {
        let (row, parts) = words.into_row(rt);
        let row = run_alone(alloc, &work, row)?;
        return Ok(CellWords::in_a_row(row, parts));
    }
    if let Some(lots) = lots {
        return run_lots(rt, alloc, &work, &lots.phases, blocks, words, workers, gate);
    }
    let (row, parts) = words.into_row(rt);
    let (cells, hand) = Cells::open(alloc, work, row)?;
    let hand = run_stage(rt, alloc, &cells, hand, workers, gate)?;
    Ok(CellWords::in_a_row(cells.close(hand), parts))
}
