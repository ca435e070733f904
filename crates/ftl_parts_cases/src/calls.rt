// Calls on the cells of the diamond, and their replay. Each line is a call, as `look HAND ITEM` or
// `claim HAND`; `places` asks where the hands are. Printed is what each call answers, `None` where
// it is no step, the words of the cells where the first hand found the end, and the state that the
// replay comes to.
ghost use Rattle.ftl_cells.specs.shared.Calls.{IsMadeBy};
ghost use Rattle.ftl_parts_cases.specs.Hands.{AreAll};

use crate::agree::places_of;
use crate::hands::{make, take_hand};
use crate::printing::write_words;
use crate::requests::request_in;
use crate::turns::write_close;
use ftl_cells::{Cells, Diamond, Hand};
use ftl_replay::{Event, Example, Replayed, Solved, replay};
use std::alloc::{AllocError, Global};
use std::fmt::Write;

/// Tells the case.
pub(crate) fn write_calls(alloc: Global, out: &mut String, lines: &str) -> Result<(), AllocError> {
    let events = events_of(alloc, lines)?;
    write_answers(alloc, out, lines)?;
    write_replay(alloc, out, events.as_slice())
}

/// The call that a line asks for.
fn event_of(line: &str) -> Option<Event> {
    let asked = request_in(line);
    let hand = asked.first;
    match asked.verb {
        "look" => Some(Event::Look {
            hand,
            item: asked.second,
        }),
        "claim" => Some(Event::Claim { hand }),
        "read" => Some(Event::Read { hand }),
        "fill" => Some(Event::Fill { hand }),
        "mark" => Some(Event::Mark { hand }),
        "deliver" => Some(Event::Deliver { hand }),
        "left" => Some(Event::Left { hand }),
        "another" => Some(Event::Another { hand }),
        "give_up" => Some(Event::GiveUp {
            hand,
            other: asked.second,
        }),
        _ => None,
    }
}

fn events_of(alloc: Global, lines: &str) -> Result<Vec<Event>, AllocError> {
    let mut events = Vec::new(alloc);
    for event in lines.lines().filter_map(|line| event_of(line)) {
        events.push(event)?;
    }
    Ok(events)
}

/// What each call answers on cells, and the words in the end.
fn write_answers(alloc: Global, out: &mut String, lines: &str) -> Result<(), AllocError> {
    let first = Diamond.first(alloc)?;
    let (cells, hand) = Cells::open(alloc, Diamond, first)?;
    let mut hands = vec![in alloc; Some(hand)]?;
    write_each(alloc, out, &cells, &mut hands, lines)?;
    match take_hand(&cells, &mut hands, 0) {
        Some(hand) => write_close(out, cells, hand)?,
        None => out.push_str(" no first hand")?,
    }
    out.push('\n')
}

fn write_each<W: Solved>(
    alloc: Global,
    out: &mut String,
    cells: &Cells<W>,
    hands: &mut Vec<Option<Hand>>,
    lines: &str,
) -> Result<(), AllocError>
    requires made { AreAll (IsMadeBy (W.meaning cells.now.1) cells.now.0) hands.old.items }
    ensures made { AreAll (IsMadeBy (W.meaning cells.now.1) cells.now.0) hands.new.items }
{
    for line in lines.lines() {
        match event_of(line) {
            Some(event) => writeln!(out, "{line}: {:?}", make(cells, hands, event)?)?,
            None => writeln!(
                out,
                "{line}: {:?}",
                places_of(alloc, hands.as_slice())?.as_slice()
            )?,
        }
    }
    Ok(())
}

/// The state that the calls lead to, or the first that is no step.
fn write_replay(alloc: Global, out: &mut String, events: &[Event]) -> Result<(), AllocError> {
    if events.len() > 1000 {
        return out.push_str("too many calls\n");
    }
    match replay(alloc, &Diamond, Diamond.first(alloc)?, events) {
        Ok(state) => {
            write_state(out, &state)?;
            writeln!(out, "; hands {:?}", state.hands.as_slice())
        }
        Err(fault) => writeln!(out, "{fault:?}"),
    }
}

/// The words, the states and the counters of a state, and the common end.
pub(crate) fn write_state(out: &mut String, state: &Replayed) -> Result<(), AllocError> {
    out.push_str("cells")?;
    write_words(out, state.cells.as_slice())?;
    write!(out, "; states {:?}", state.states.as_slice())?;
    write!(out, "; counters {:?}", state.counters.as_slice())?;
    write!(out, "; end {}", state.end)
}
