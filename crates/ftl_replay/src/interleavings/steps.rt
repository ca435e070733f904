// The step of one hand that each kind of event asks for, where its place allows it.
ghost use Rattle.std.specs.Prelude.{◌≡◌, ◌≤◌, ℕ, ◌<◌, IfSome, IfNone, length, vec_capacity};
ghost use Rattle.std.specs.Prelude.{◌-◌, slice_index, slice_set, vec_len};
ghost use Rattle.ftl_cells.specs.shared.Work.{item_total};
ghost use Rattle.ftl_cells.specs.shared.State.{live, Sends, state_word, count_word};
ghost use Rattle.ftl_cells.specs.shared.Calls.{CanClaim, CanRead, CanMark, CanDeliver};
ghost use Rattle.ftl_replay.specs.interleavings.Events.{IsIdle, HasRead, IsPlaceFor};
ghost use Rattle.ftl_replay.specs.interleavings.Replays.{IsStageWith, StepsTo};
ghost use Rattle.ftl_replay.specs.declared.interleavings.event.Event.TheVariants.{Look, Claim};
ghost use Rattle.ftl_replay.specs.declared.interleavings.event.Event.TheVariants.{Read, Fill};
ghost use Rattle.ftl_replay.specs.declared.interleavings.event.Event.TheVariants.{Mark, Deliver};
ghost use Rattle.ftl_replay.specs.declared.interleavings.event.Event.TheVariants.{Left};

use crate::interleavings::scratch::Scratch;
use ftl_base::word_of;
use ftl_cells::{HandPlace, Work};

/// Where an item's state stands in the row of words.
fn state_at<W: Work>(work: &W, item: u32) -> usize
    ensures word { result ≡ state_word (W.meaning work.now) item }
{
    1 + work.cells() as usize + item as usize
}

/// Where an item's counter stands.
fn count_at<W: Work>(work: &W, item: u32) -> usize
    ensures word { result ≡ count_word (W.meaning work.now) item }
{
    1 + work.cells() as usize + work.items() as usize + item as usize
}

pub(crate) fn look<W: Work>(work: &W, row: &[u64], place: HandPlace, item: u32) -> Option<HandPlace>
    requires stage { IsStageWith (W.meaning work.now) row.now place }
    ensures step { IfSome result (λ q. (hand : ℕ)
        → StepsTo (W.meaning work.now) (Look hand item) row.now place row.now q) }
    ensures none { IfNone result
        (IsIdle (live place) × (item < item_total (W.meaning work.now)) → ⊥) }
{
    let HandPlace::Idle = place else {
        return None;
    };
    if work.items() <= item {
        return None;
    }
    let count = row[count_at(work, item)];
    if count == 0 {
        return Some(HandPlace::Looked { item });
    }
    Some(HandPlace::Idle)
}

pub(crate) fn claim<W: Work>(work: &W, row: &mut Vec<u64>, place: HandPlace) -> Option<HandPlace>
    requires stage { IsStageWith (W.meaning work.now) row.old.items place }
    ensures step { IfSome result (λ q. (hand : ℕ)
        → StepsTo (W.meaning work.now) (Claim hand) row.old.items place row.new.items q) }
    ensures none { IfNone result (CanClaim (live place) → ⊥) }
{
    let HandPlace::Looked { item } = place else {
        return None;
    };
    let at = state_at(work, item);
    if row[at] != 0 {
        return Some(HandPlace::Idle);
    }
    row[at] = 1;
    Some(HandPlace::Working {
        item,
        step: 0,
        reads: 0,
    })
}

/// A load of the cell of the next read. Its value is taken again at the fill.
pub(crate) fn read<W: Work>(work: &W, row: &[u64], place: HandPlace) -> Option<HandPlace>
    requires stage { IsStageWith (W.meaning work.now) row.now place }
    ensures step { IfSome result (λ q. (hand : ℕ)
        → StepsTo (W.meaning work.now) (Read hand) row.now place row.now q) }
    ensures none { IfNone result (CanRead (W.meaning work.now) (live place) → ⊥) }
{
    let HandPlace::Working { item, step, reads } = place else {
        return None;
    };
    if step == work.step_count(item) || reads == work.read_count(item, step) {
        return None;
    }
    Some(HandPlace::Working {
        item,
        step,
        reads: reads + 1,
    })
}

pub(crate) fn fill<W: Work>(
    work: &W,
    row: &mut Vec<u64>,
    scratch: &mut Scratch,
    place: HandPlace,
) -> Option<HandPlace>
    requires stage { IsStageWith (W.meaning work.now) row.old.items place }
    requires reads { (W.meaning work.now).max_reads ≤ vec_capacity scratch.old.reads }
    requires room { (W.meaning work.now).max_stack ≤ scratch.old.stack.room }
    ensures step { IfSome result (λ q. (hand : ℕ)
        → StepsTo (W.meaning work.now) (Fill hand) row.old.items place row.new.items q) }
    ensures none { IfNone result (HasRead (W.meaning work.now) (live place) → ⊥) }
    ensures reads { vec_capacity scratch.old.reads ≤ vec_capacity scratch.new.reads }
    ensures room { scratch.new.stack.room ≡ scratch.old.stack.room }
{
    let HandPlace::Working { item, step, reads } = place else {
        return None;
    };
    if step == work.step_count(item) || reads != work.read_count(item, step) {
        return None;
    }
    let val = scratch.result_of(work, row.as_slice(), item, step);
    row[1 + work.target(item, step) as usize] = word_of(val);
    Some(HandPlace::Working {
        item,
        step: step + 1,
        reads: 0,
    })
}

pub(crate) fn mark<W: Work>(work: &W, row: &mut Vec<u64>, place: HandPlace) -> Option<HandPlace>
    requires stage { IsStageWith (W.meaning work.now) row.old.items place }
    ensures step { IfSome result (λ q. (hand : ℕ)
        → StepsTo (W.meaning work.now) (Mark hand) row.old.items place row.new.items q) }
    ensures none { IfNone result (CanMark (W.meaning work.now) (live place) → ⊥) }
{
    let HandPlace::Working { item, step, .. } = place else {
        return None;
    };
    if step != work.step_count(item) {
        return None;
    }
    row[state_at(work, item)] = 2;
    Some(HandPlace::Filled { item })
}

pub(crate) fn deliver<W: Work>(work: &W, row: &mut Vec<u64>, place: HandPlace) -> Option<HandPlace>
    requires stage { IsStageWith (W.meaning work.now) row.old.items place }
    ensures step { IfSome result (λ q. (hand : ℕ)
        → StepsTo (W.meaning work.now) (Deliver hand) row.old.items place row.new.items q) }
    ensures none { IfNone result (CanDeliver (live place) → ⊥) }
{
    let Some((item, sent)) = sent_from(place) else {
        return None;
    };
    if sent == work.next_count(item) {
        take_one(row, 0);
        return Some(HandPlace::Idle);
    }
    let next = work.next(item, sent);
    take_one(row, count_at(work, next));
    Some(HandPlace::Sending {
        item,
        sent: sent + 1,
    })
}

/// The item that a hand delivers, and how often it did.
fn sent_from(place: HandPlace) -> Option<(u32, u32)>
    ensures item { IfSome result (λ s. Sends (live place) s.0 s.1) }
    ensures none { IfNone result (CanDeliver (live place) → ⊥) }
{
    match place {
        HandPlace::Filled { item } => Some((item, 0)),
        HandPlace::Sending { item, sent } => Some((item, sent)),
        _ => None,
    }
}

fn take_one(row: &mut Vec<u64>, at: usize)
    requires at { at < vec_len row.old }
    requires some { 0 < slice_index row.old.items at }
    ensures taken { row.new.items ≡ slice_set row.old.items at (slice_index row.old.items at - 1) }
{
    row[at] -= 1;
}

pub(crate) fn left<W: Work>(work: &W, row: &[u64], place: HandPlace) -> Option<HandPlace>
    requires stage { IsStageWith (W.meaning work.now) row.now place }
    ensures step { IfSome result (λ q. (hand : ℕ)
        → StepsTo (W.meaning work.now) (Left hand) row.now place row.now q) }
    ensures none { IfNone result (IsIdle (live place) → ⊥) }
{
    let HandPlace::Idle = place else {
        return None;
    };
    if row[0] == 0 {
        return Some(HandPlace::Ended);
    }
    Some(HandPlace::Idle)
}
