//! The items of one phase.
ghost use Rattle.std.specs.Prelude.{◌≡◌, ◌+◌, ◌<◌, ◌≤◌, length, vec_capacity};
ghost use Rattle.ftl_cells.specs.shared.Work.{item_total};
ghost use Rattle.ftl_lots.specs.filling.Blocks.{AreIdle};
ghost use Rattle.ftl_lots.specs.filling.Filled.{IsFilledIn};
ghost use Rattle.ftl_lots.specs.filling.Spans.{IsSpanOf};
ghost use Rattle.ftl_cells.specs.work_phases.Phases.{phase_at};

use crate::filling::blocks::ItemBlocks;
use crate::filling::filler::PhaseFiller;
use crate::filling::run_items::RunItems;
use crate::filling::spans::Span;
use crate::words::WordRow;
use ftl_base::{CodeStack, Val};
use ftl_cells::{Phase, Phases};

/// Fills the items of a phase in order, on the words of the cells from the first one on. The items
/// lie in this span, and those of blocks that are passed over have no step.
pub(crate) fn fill_phase<W: RunItems, S: WordRow>(
    work: &W,
    phases: &Phases,
    phase: Phase,
    span: Span,
    blocks: ItemBlocks<'_>,
    first: u32,
    words: &mut S,
    reads: &mut Vec<Val>,
    stack: &mut CodeStack,
)
    requires filled { IsFilledIn (W.meaning work.now) phases.now phase
        (S.words words.old) first 0 0 }
    requires laid_out { S.fit words.old }
    requires span { IsSpanOf phases.now (item_total (W.meaning work.now)) phase span }
    requires idle { AreIdle (W.meaning work.now) blocks }
    requires reads { (W.meaning work.now).max_reads ≤ vec_capacity reads.old }
    requires room { (W.meaning work.now).max_stack ≤ stack.old.room }
    ensures filled { IsFilledIn (W.meaning work.now) phases.now phase
        (S.words words.new) first (item_total (W.meaning work.now)) 0 }
    ensures count { length (S.words words.new) ≡ length (S.words words.old) }
    ensures laid_out { S.fit words.new }
    ensures layout { S.layout words.new ≡ S.layout words.old }
    ensures reads { vec_capacity reads.old ≤ vec_capacity reads.new }
    ensures room { stack.new.room ≡ stack.old.room }
{
    let mut item = blocks.next(span.from, span.to);
    while item < span.to {
        if phases.phases[item as usize].is(phase) {
            fill_item(work, phases, phase, first, words, item, reads, stack);
        }
        item = blocks.next(item + 1, span.to);
    }
}

/// Fills one item of a phase.
fn fill_item<W: RunItems, S: WordRow>(
    work: &W,
    phases: &Phases,
    phase: Phase,
    first: u32,
    words: &mut S,
    item: u32,
    reads: &mut Vec<Val>,
    stack: &mut CodeStack,
)
    requires filled { IsFilledIn (W.meaning work.now) phases.now phase
        (S.words words.old) first item 0 }
    requires laid_out { S.fit words.old }
    requires item { item < item_total (W.meaning work.now) }
    requires phase { phase_at phases.now item ≡ phase }
    requires reads { (W.meaning work.now).max_reads ≤ vec_capacity reads.old }
    requires room { (W.meaning work.now).max_stack ≤ stack.old.room }
    ensures filled { IsFilledIn (W.meaning work.now) phases.now phase
        (S.words words.new) first (item + 1) 0 }
    ensures count { length (S.words words.new) ≡ length (S.words words.old) }
    ensures laid_out { S.fit words.new }
    ensures layout { S.layout words.new ≡ S.layout words.old }
    ensures reads { vec_capacity reads.old ≤ vec_capacity reads.new }
    ensures room { stack.new.room ≡ stack.old.room }
{
    let mut filler = PhaseFiller {
        work,
        phases,
        phase,
        first,
        words,
        item,
        step: 0,
        reads: 0,
    };
    work.run_one(item, &mut filler, reads, stack);
}
