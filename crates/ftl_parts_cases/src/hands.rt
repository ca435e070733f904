// Hands on cells by number, and the call that an event asks for, where it is a step.
ghost use Rattle.std.specs.Prelude.{◌≡◌, IsTrue, IfSome};
ghost use Rattle.ftl_cells.specs.shared.State.{IsFree};
ghost use Rattle.ftl_cells.specs.shared.Calls.{IsMadeBy};
ghost use Rattle.ftl_parts_cases.specs.Hands.{AreAll};

use ftl_base::Val;
use ftl_cells::{Cells, Claim, Deliver, Hand, HandPlace, Look, Work};
use ftl_replay::{Event, Solved};
use std::alloc::AllocError;

/// What a call answers.
#[derive(Clone, Copy, Debug)]
pub(crate) enum Answer {
    Looked(Look),
    Claimed(Claim),
    Value(Val),
    /// The value that was stored.
    Filled(Val),
    Delivered(Deliver),
    Left(u64),
    /// The call answers nothing.
    Done,
}

/// Makes the call where the event is a step of these hands. Where it is none, nothing is called.
pub(crate) fn make<W: Solved>(
    cells: &Cells<W>,
    hands: &mut Vec<Option<Hand>>,
    event: Event,
) -> Result<Option<Answer>, AllocError>
    requires made { AreAll (IsMadeBy (W.meaning cells.now.1) cells.now.0) hands.old.items }
    ensures made { AreAll (IsMadeBy (W.meaning cells.now.1) cells.now.0) hands.new.items }
{
    let Some(mut hand) = take_hand(cells, hands, event.hand()) else {
        return Ok(None);
    };
    let answer = match event {
        Event::Another { .. } => another(cells, hands, &mut hand)?,
        Event::GiveUp { other, .. } => give_up(cells, hands, &mut hand, other),
        _ => own_call(cells, &mut hand, event),
    };
    put_hand(cells, hands, event.hand(), hand);
    Ok(answer)
}

/// Takes the hand of this number out of the list, where it is there.
pub(crate) fn take_hand<W: Work>(
    cells: &Cells<W>,
    hands: &mut Vec<Option<Hand>>,
    hand: u32,
) -> Option<Hand>
    requires made { AreAll (IsMadeBy (W.meaning cells.now.1) cells.now.0) hands.old.items }
    ensures made { AreAll (IsMadeBy (W.meaning cells.now.1) cells.now.0) hands.new.items }
    ensures hand { IfSome result (IsMadeBy (W.meaning cells.now.1) cells.now.0) }
{
    let at = hand as usize;
    if at < hands.len() {
        hands[at].take()
    } else {
        None
    }
}

/// Puts the hand back.
pub(crate) fn put_hand<W: Work>(
    cells: &Cells<W>,
    hands: &mut Vec<Option<Hand>>,
    number: u32,
    hand: Hand,
)
    requires made { AreAll (IsMadeBy (W.meaning cells.now.1) cells.now.0) hands.old.items }
    requires hand { IsMadeBy (W.meaning cells.now.1) cells.now.0 hand }
    ensures made { AreAll (IsMadeBy (W.meaning cells.now.1) cells.now.0) hands.new.items }
{
    let at = number as usize;
    if at < hands.len() {
        hands[at] = Some(hand);
    }
}

fn another<W: Work>(
    cells: &Cells<W>,
    hands: &mut Vec<Option<Hand>>,
    hand: &mut Hand,
) -> Result<Option<Answer>, AllocError>
    requires made { AreAll (IsMadeBy (W.meaning cells.now.1) cells.now.0) hands.old.items }
    requires hand { IsMadeBy (W.meaning cells.now.1) cells.now.0 hand.old }
    ensures made { AreAll (IsMadeBy (W.meaning cells.now.1) cells.now.0) hands.new.items }
    ensures hand { IsMadeBy (W.meaning cells.now.1) cells.now.0 hand.new }
{
    let HandPlace::Idle = hand.place() else {
        return Ok(None);
    };
    hands.push(Some(cells.another(hand)))?;
    Ok(Some(Answer::Done))
}

/// Whether the hand can be given up, or take in another.
pub(crate) fn is_free(hand: &Hand) -> bool
    ensures free { IsTrue result → IsFree hand.now.state.place }
{
    match hand.place() {
        HandPlace::Idle | HandPlace::Ended => true,
        _ => false,
    }
}

fn give_up<W: Work>(
    cells: &Cells<W>,
    hands: &mut Vec<Option<Hand>>,
    hand: &mut Hand,
    other: u32,
) -> Option<Answer>
    requires made { AreAll (IsMadeBy (W.meaning cells.now.1) cells.now.0) hands.old.items }
    requires hand { IsMadeBy (W.meaning cells.now.1) cells.now.0 hand.old }
    ensures made { AreAll (IsMadeBy (W.meaning cells.now.1) cells.now.0) hands.new.items }
    ensures hand { IsMadeBy (W.meaning cells.now.1) cells.now.0 hand.new }
{
    let taken = take_hand(cells, hands, other)?;
    if !is_free(hand) || !is_free(&taken) {
        put_hand(cells, hands, other, taken);
        return None;
    }
    cells.give_up(hand, taken);
    Some(Answer::Done)
}

/// The calls of one hand alone.
fn own_call<W: Solved>(cells: &Cells<W>, hand: &mut Hand, event: Event) -> Option<Answer>
    requires made { IsMadeBy (W.meaning cells.now.1) cells.now.0 hand.old }
    ensures made { IsMadeBy (W.meaning cells.now.1) cells.now.0 hand.new }
{
    match (event, hand.place()) {
        (Event::Look { item, .. }, HandPlace::Idle) if item < cells.work().items() => {
            Some(Answer::Looked(cells.look(hand, item)))
        }
        (Event::Claim { .. }, HandPlace::Looked { .. }) => Some(Answer::Claimed(cells.claim(hand))),
        (Event::Read { .. }, _) => read(cells, hand),
        (Event::Fill { .. }, _) => fill(cells, hand),
        (Event::Mark { .. }, HandPlace::Working { item, step, .. })
            if step == cells.work().step_count(item) => {
            cells.mark(hand);
            Some(Answer::Done)
        }
        (Event::Deliver { .. }, HandPlace::Filled { .. } | HandPlace::Sending { .. }) => {
            Some(Answer::Delivered(cells.deliver(hand)))
        }
        (Event::Left { .. }, HandPlace::Idle) => Some(Answer::Left(cells.left(hand))),
        _ => None,
    }
}

fn read<W: Work>(cells: &Cells<W>, hand: &mut Hand) -> Option<Answer>
    requires made { IsMadeBy (W.meaning cells.now.1) cells.now.0 hand.old }
    ensures made { IsMadeBy (W.meaning cells.now.1) cells.now.0 hand.new }
{
    let HandPlace::Working { item, step, reads } = hand.place() else {
        return None;
    };
    if step == cells.work().step_count(item) || reads == cells.work().read_count(item, step) {
        return None;
    }
    Some(Answer::Value(cells.read(hand)))
}

fn fill<W: Solved>(cells: &Cells<W>, hand: &mut Hand) -> Option<Answer>
    requires made { IsMadeBy (W.meaning cells.now.1) cells.now.0 hand.old }
    ensures made { IsMadeBy (W.meaning cells.now.1) cells.now.0 hand.new }
{
    let HandPlace::Working { item, step, reads } = hand.place() else {
        return None;
    };
    if step == cells.work().step_count(item) || reads != cells.work().read_count(item, step) {
        return None;
    }
    let target = cells.work().target(item, step);
    if target >= cells.work().cells() {
        return None;
    }
    let value = cells.work().value_at(target);
    cells.fill(hand, value);
    Some(Answer::Filled(value))
}
