//! All phases of a work.
ghost use Rattle.std.specs.Prelude.{◌≡◌, ◌<◌, ◌≤◌, length, vec_capacity, IfOk};
ghost use Rattle.ftl_cells.specs.shared.State.{AreFirst, AreLast};
ghost use Rattle.ftl_cells.specs.shared.Work.{item_total};
ghost use Rattle.ftl_cells.specs.work_phases.Phases.{CanTake};
ghost use Rattle.ftl_lots.specs.filling.Blocks.{AreIdle};
ghost use Rattle.ftl_lots.specs.filling.Filled.{IsFilledIn};
ghost use Rattle.ftl_lots.specs.words.Parts.{IsCut, all_words};

use crate::filling::{ItemBlocks, LotPhases, Span, fill_phase};
use crate::run::lots::filled_parts;
use crate::table::LotFiller;
use crate::words::{CellWords, Parts};
use ftl_base::{CodeStack, Val};
use ftl_cells::{Phase, Work};
use ftl_edge::Gate;
use std::alloc::{AllocError, Global};
use std::sync::Wait;
use std::thread::Threads;

/// Fills the cells of a work, phase by phase: the items of the first phase by the calling thread,
/// then each range as a lot by one of so many workers, which calls the gate before it, and the
/// items of the last phase by the calling thread again. Items of blocks that are passed over are
/// not looked at. The words are cut into the parts of the lots, unless they lie so already, and stay
/// in them.
pub fn run_lots<R: Threads + Wait + Sync, W: Work, G: Gate>(
    rt: &R,
    alloc: Global,
    work: &W,
    phases: &LotPhases,
    blocks: ItemBlocks<'_>,
    words: CellWords,
    workers: u32,
    gate: &G,
) -> Result<CellWords, AllocError>
    requires first { AreFirst (W.meaning work.now) words }
    requires phases { CanTake (W.meaning work.now) phases.now }
    requires idle { AreIdle (W.meaning work.now) blocks }
    requires some { 0 < workers }
    requires few { workers ≤ 64 }
    ensures last { IfOk result (AreLast (W.meaning work.now)) }
{
    let (_items, _cells) = (work.items(), work.cells());
    let filler = LotFiller {
        work,
        phases: &phases.phases,
        spans: phases.spans.as_slice(),
        blocks,
    };
    let mut reads = Vec::with_capacity(alloc, work.max_reads() as usize)?;
    let mut stack = CodeStack::new(alloc, work.max_stack())?;
    let (size, lots) = (phases.phases.size, phases.phases.ranges);
    let (mut all, row) = words.into_parts(rt, alloc, size, lots)?;
    fill_alone(&filler, Phase::First, &mut all, &mut reads, &mut stack);
    let parts = filled_parts(rt, alloc, &filler, all.parts, workers, gate)?;
    let mut all = Parts { size, parts };
    fill_alone(&filler, Phase::Last, &mut all, &mut reads, &mut stack);
    Ok(CellWords::in_parts(all, row))
}

/// Fills the items of the first or the last phase by the calling thread.
fn fill_alone<W: Work>(
    filler: &LotFiller<'_, W>,
    phase: Phase,
    words: &mut Parts,
    reads: &mut Vec<Val>,
    stack: &mut CodeStack,
)
    requires filled { IsFilledIn filler.now.of filler.now.phases phase
        (all_words words.old.parts.items) 0 0 0 }
    requires cut { IsCut words.old.size words.old.parts.items }
    requires reads { filler.now.of.max_reads ≤ vec_capacity reads.old }
    requires room { filler.now.of.max_stack ≤ stack.old.room }
    ensures filled { IsFilledIn filler.now.of filler.now.phases phase
        (all_words words.new.parts.items) 0 (item_total filler.now.of) 0 }
    ensures count { length (all_words words.new.parts.items)
        ≡ length (all_words words.old.parts.items) }
    ensures cut { IsCut words.new.size words.new.parts.items }
    ensures size { words.new.size ≡ words.old.size }
    ensures lots { length words.new.parts.items ≡ length words.old.parts.items }
    ensures reads { vec_capacity reads.old ≤ vec_capacity reads.new }
    ensures room { stack.new.room ≡ stack.old.room }
{
    let all = Span {
        from: 0,
        to: filler.work.items(),
    };
    fill_phase(
        filler.work,
        filler.phases,
        phase,
        all,
        filler.blocks,
        0,
        words,
        reads,
        stack,
    );
}
