// The step that an event asks for, on the row of words and the places of all hands.
ghost use Rattle.std.specs.Prelude.{◌≡◌, ◌≤◌, ◌↔◌, IsTrue, IfSome, IfNone, IfOk, ℕ, List, false};
ghost use Rattle.ftl_cells.specs.shared.Work.{Meaning};
ghost use Rattle.std.specs.Prelude.{vec_capacity};
ghost use Rattle.ftl_cells.specs.shared.State.{live, spent, IsFree};
ghost use Rattle.ftl_replay.specs.interleavings.Events.{IsOwn, IsPlaceFor, IsStepAt, place_at};
ghost use Rattle.ftl_replay.specs.interleavings.Replays.{IsState, IsMade, IsStageWith, StepsTo};
ghost use Rattle.ftl_replay.specs.declared.interleavings.event.Event.TheVariants.{Another, GiveUp};

use crate::interleavings::event::Event;
use crate::interleavings::place::ReplayPlace;
use crate::interleavings::scratch::Scratch;
use crate::interleavings::steps::{claim, deliver, fill, left, look, mark, read};
use ftl_cells::{HandPlace, Work};
use std::alloc::AllocError;

/// Makes the step, and says whether the event is one.
pub(crate) fn make_step<W: Work>(
    work: &W,
    row: &mut Vec<u64>,
    hands: &mut Vec<ReplayPlace>,
    scratch: &mut Scratch,
    event: Event,
) -> Result<bool, AllocError>
    requires state { IsState (W.meaning work.now) row.old.items hands.old.items }
    requires reads { (W.meaning work.now).max_reads ≤ vec_capacity scratch.old.reads }
    requires room { (W.meaning work.now).max_stack ≤ scratch.old.stack.room }
    ensures step { IfOk result (λ b. IsTrue b → IsMade (W.meaning work.now) event
        row.old.items hands.old.items row.new.items hands.new.items) }
    ensures none { IfOk result (λ b. b ≡ false
        → IsStepAt (W.meaning work.now) event hands.old.items → ⊥) }
    ensures reads { vec_capacity scratch.old.reads ≤ vec_capacity scratch.new.reads }
    ensures room { scratch.new.stack.room ≡ scratch.old.stack.room }
{
    match event {
        Event::Another { hand } => another(hands, hand),
        Event::GiveUp { hand, other } => Ok(give_up(hands, hand, other)),
        _ => Ok(own_step(work, row, hands, scratch, event)),
    }
}

/// The place of the hand of this number, where it is there and was not given up.
fn live_at(hands: &[ReplayPlace], hand: u32) -> Option<HandPlace>
    ensures some { IfSome result (λ p. place_at hands.now hand ≡ live p) }
    ensures none { IfNone result (place_at hands.now hand ≡ spent) }
{
    match hands.get(hand as usize) {
        Some(ReplayPlace::Live(place)) => Some(*place),
        _ => None,
    }
}

fn is_free_at(hands: &[ReplayPlace], hand: u32) -> bool
    ensures free { IsTrue result ↔ IsFree (place_at hands.now hand) }
{
    match live_at(hands, hand) {
        Some(HandPlace::Idle) => true,
        Some(HandPlace::Ended) => true,
        _ => false,
    }
}

/// A hand that is Idle makes another.
fn another(hands: &mut Vec<ReplayPlace>, hand: u32) -> Result<bool, AllocError>
    ensures step { IfOk result (λ b. IsTrue b → (m : Meaning) (words : List ℕ)
        → IsMade m (Another hand) words hands.old.items words hands.new.items) }
    ensures none { IfOk result (λ b. b ≡ false
        → (m : Meaning) → IsStepAt m (Another hand) hands.old.items → ⊥) }
{
    let Some(HandPlace::Idle) = live_at(hands.as_slice(), hand) else {
        return Ok(false);
    };
    hands.push(ReplayPlace::Live(HandPlace::Idle))?;
    Ok(true)
}

/// A hand takes in another, which is spent then.
fn give_up(hands: &mut Vec<ReplayPlace>, hand: u32, other: u32) -> bool
    ensures step { IsTrue result → (m : Meaning) (words : List ℕ)
        → IsMade m (GiveUp hand other) words hands.old.items words hands.new.items }
    ensures none { result ≡ false
        → (m : Meaning) → IsStepAt m (GiveUp hand other) hands.old.items → ⊥ }
{
    if other == hand || !is_free_at(hands.as_slice(), hand) {
        return false;
    }
    if !is_free_at(hands.as_slice(), other) {
        return false;
    }
    hands[other as usize] = ReplayPlace::Spent;
    true
}

fn own_step<W: Work>(
    work: &W,
    row: &mut Vec<u64>,
    hands: &mut Vec<ReplayPlace>,
    scratch: &mut Scratch,
    event: Event,
) -> bool
    requires own { IsOwn event }
    requires state { IsState (W.meaning work.now) row.old.items hands.old.items }
    requires reads { (W.meaning work.now).max_reads ≤ vec_capacity scratch.old.reads }
    requires room { (W.meaning work.now).max_stack ≤ scratch.old.stack.room }
    ensures step { IsTrue result → IsMade (W.meaning work.now) event
        row.old.items hands.old.items row.new.items hands.new.items }
    ensures none { result ≡ false
        → IsStepAt (W.meaning work.now) event hands.old.items → ⊥ }
    ensures reads { vec_capacity scratch.old.reads ≤ vec_capacity scratch.new.reads }
    ensures room { scratch.new.stack.room ≡ scratch.old.stack.room }
{
    let hand = event.hand();
    let Some(place) = live_at(hands.as_slice(), hand) else {
        return false;
    };
    let Some(next) = next_place(work, row, scratch, place, event) else {
        return false;
    };
    hands[hand as usize] = ReplayPlace::Live(next);
    true
}

/// Where a hand at this place is after the step that the event asks for, where it can make it.
fn next_place<W: Work>(
    work: &W,
    row: &mut Vec<u64>,
    scratch: &mut Scratch,
    place: HandPlace,
    event: Event,
) -> Option<HandPlace>
    requires own { IsOwn event }
    requires stage { IsStageWith (W.meaning work.now) row.old.items place }
    requires reads { (W.meaning work.now).max_reads ≤ vec_capacity scratch.old.reads }
    requires room { (W.meaning work.now).max_stack ≤ scratch.old.stack.room }
    ensures step { IfSome result (λ q. StepsTo (W.meaning work.now) event
        row.old.items place row.new.items q) }
    ensures none { IfNone result (IsPlaceFor (W.meaning work.now) event (live place) → ⊥) }
    ensures reads { vec_capacity scratch.old.reads ≤ vec_capacity scratch.new.reads }
    ensures room { scratch.new.stack.room ≡ scratch.old.stack.room }
{
    match event {
        Event::Look { item, .. } => look(work, row.as_slice(), place, item),
        Event::Claim { .. } => claim(work, row, place),
        Event::Read { .. } => read(work, row.as_slice(), place),
        Event::Fill { .. } => fill(work, row, scratch, place),
        Event::Mark { .. } => mark(work, row, place),
        Event::Deliver { .. } => deliver(work, row, place),
        Event::Left { .. } => left(work, row.as_slice(), place),
        Event::Another { .. } | Event::GiveUp { .. } => unreachable!(),
    }
}
