// Whether what a call answered is what the replayed states before and after tell of it.
ghost use Rattle.std.specs.Prelude.{IsTrue};
ghost use Rattle.ftl_cells.specs.shared.Work.{IsStepOfItem};

use crate::hands::Answer;
use ftl_base::{Val, val_of};
use ftl_cells::{Claim, Deliver, Hand, HandPlace, Look, Work};
use ftl_replay::{Event, ReplayPlace, Replayed, Solved};
use std::alloc::{AllocError, Global};

/// Whether each hand is at the place that was replayed, or was given up.
pub(crate) fn are_places_of(hands: &[Option<Hand>], places: &[ReplayPlace]) -> bool {
    hands.len() == places.len()
        && hands
            .iter()
            .zip(places.iter())
            .all(|(hand, place)| replay_place(hand) == *place)
}

/// Where the hands are.
pub(crate) fn places_of(
    alloc: Global,
    hands: &[Option<Hand>],
) -> Result<Vec<ReplayPlace>, AllocError> {
    let mut places = Vec::new(alloc);
    for hand in hands {
        places.push(replay_place(hand))?;
    }
    Ok(places)
}

pub(crate) fn replay_place(hand: &Option<Hand>) -> ReplayPlace {
    match hand {
        Some(hand) => ReplayPlace::Live(hand.place()),
        None => ReplayPlace::Spent,
    }
}

pub(crate) fn agrees<W: Solved>(
    work: &W,
    before: &Replayed,
    after: &Replayed,
    event: Event,
    answer: Answer,
) -> bool {
    match before.hands.as_slice().get(event.hand() as usize) {
        Some(ReplayPlace::Live(place)) => agrees_at(work, before, after, event, *place, answer),
        _ => false,
    }
}

/// The same, of a hand that was at this place.
fn agrees_at<W: Solved>(
    work: &W,
    before: &Replayed,
    after: &Replayed,
    event: Event,
    place: HandPlace,
    answer: Answer,
) -> bool {
    match (event, place, answer) {
        (Event::Look { item, .. }, _, Answer::Looked(look)) => {
            before.counters.as_slice().get(item as usize) == Some(&held(look))
        }
        (Event::Claim { .. }, HandPlace::Looked { item }, Answer::Claimed(claim)) => {
            before.states.as_slice().get(item as usize) == Some(&found(claim))
        }
        (Event::Read { .. }, HandPlace::Working { item, step, reads }, Answer::Value(val)) => {
            read_cell(work, item, step, reads).is_some_and(|cell| holds(before, cell, val))
        }
        (Event::Fill { .. }, HandPlace::Working { item, step, .. }, Answer::Filled(_)) => {
            is_filled(work, after, item, step)
        }
        (Event::Mark { .. }, HandPlace::Working { item, .. }, Answer::Done) => {
            after.states.as_slice().get(item as usize) == Some(&2)
        }
        (Event::Deliver { .. }, _, Answer::Delivered(deliver)) => is_sent(before, after, deliver),
        (Event::Left { .. }, _, Answer::Left(left)) => left == before.end,
        (Event::Another { .. } | Event::GiveUp { .. }, _, Answer::Done) => has_same_words(
            before, after,
        ),
        _ => false,
    }
}

/// What the counter held that a look found.
fn held(look: Look) -> u64 {
    match look {
        Look::Ready => 0,
        Look::NotYet(count) => count,
    }
}

/// What the state held that a claim found.
fn found(claim: Claim) -> u64 {
    match claim {
        Claim::Mine => 0,
        Claim::Taken(state) => state,
    }
}

fn has_step<W: Work>(work: &W, item: u32, step: u32) -> bool
    ensures step { IsTrue result → IsStepOfItem (W.meaning work.now) item step }
{
    item < work.items() && step < work.step_count(item)
}

/// The cell of a read, where the work has one.
fn read_cell<W: Work>(work: &W, item: u32, step: u32, reads: u32) -> Option<u32> {
    if has_step(work, item, step) && reads < work.read_count(item, step) {
        Some(work.read(item, step, reads))
    } else {
        None
    }
}

fn holds(state: &Replayed, cell: u32, val: Val) -> bool {
    match state.cells.as_slice().get(cell as usize) {
        Some(word) => val_of(*word) == Some(val),
        None => false,
    }
}

/// Whether the target of the step holds the solution's value.
fn is_filled<W: Solved>(work: &W, state: &Replayed, item: u32, step: u32) -> bool {
    if !has_step(work, item, step) {
        return false;
    }
    let cell = work.target(item, step);
    cell < work.cells() && holds(state, cell, work.value_at(cell))
}

/// Whether one was taken from the counter that the delivery tells of, and whether it says that
/// none is left.
fn is_sent(before: &Replayed, after: &Replayed, deliver: Deliver) -> bool {
    match deliver {
        Deliver::Finished => before.end.checked_sub(1) == Some(after.end),
        Deliver::Sent { next, last } => {
            match (
                before.counters.as_slice().get(next as usize),
                after.counters.as_slice().get(next as usize),
            ) {
                (Some(count), Some(left)) => {
                    count.checked_sub(1) == Some(*left) && last == (*left == 0)
                }
                _ => false,
            }
        }
    }
}

fn has_same_words(before: &Replayed, after: &Replayed) -> bool {
    before.cells.as_slice() == after.cells.as_slice()
        && before.states.as_slice() == after.states.as_slice()
        && before.counters.as_slice() == after.counters.as_slice()
        && before.end == after.end
}
