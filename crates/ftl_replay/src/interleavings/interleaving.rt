ghost use Rattle.std.specs.Prelude.{◌≡◌, ◌<◌, length, IfOk, IfErr};
ghost use Rattle.ftl_cells.specs.shared.State.{AreFirst, word_total};
ghost use Rattle.ftl_replay.specs.interleavings.Replays.{LeadTo, HasParts, NamesFirstNoStep};
ghost use Rattle.ftl_replay.specs.interleavings.Replays.{LeadIsKept};
ghost use Rattle.ftl_replay.specs.interleavings.Replays.{row_of};

use crate::interleavings::event::Event;
use crate::interleavings::fault::ReplayFault;
use crate::interleavings::lists::{PlaceList, WordList};
use crate::interleavings::make::make_step;
use crate::interleavings::place::ReplayPlace;
use crate::interleavings::scratch::Scratch;
use ftl_cells::{HandPlace, Work, open_row};
use std::alloc::{AllocError, Global};

/// A state of shared cells on plain lists.
#[derive(Drop)]
pub struct Replayed {
    pub cells: WordList,
    /// Of each item 0 where it is free, 1 where it is claimed, 2 where it is filled.
    pub states: WordList,
    pub counters: WordList,
    /// The common end's counter.
    pub end: u64,
    pub hands: PlaceList,
}

/// Makes the steps that the events ask for, from the opening of the cells with one hand.
pub fn replay<W: Work>(
    alloc: Global,
    work: &W,
    words: Vec<u64>,
    events: &[Event],
) -> Result<Replayed, ReplayFault>
    requires words { AreFirst (W.meaning work.now) words.items }
    requires few { length events.now < 4294967296 }
    // Where each event is a step, the state that they lead to.
    ensures done { IfOk result (λ r. LeadTo (W.meaning work.now) words.items events.now
        (row_of r.end r.cells r.states r.counters) r.hands) }
    ensures parts { IfOk result (λ r. HasParts (W.meaning work.now) r.cells r.states r.counters) }
    ensures kept { IfOk result (λ r. LeadIsKept (W.meaning work.now) words.items events.now
        (row_of r.end r.cells r.states r.counters)) }
    // Otherwise the first that is none.
    ensures no_step { IfErr result
        (λ e. NamesFirstNoStep (W.meaning work.now) words.items events.now e) }
{
    let mut row = words;
    open_row(work, &mut row)?;
    let mut hands = Vec::new(alloc);
    hands.push(ReplayPlace::Live(HandPlace::Idle))?;
    let mut scratch = Scratch::new(alloc, work)?;
    for (at, &event) in events.iter().enumerate() {
        if !make_step(work, &mut row, &mut hands, &mut scratch, event)? {
            return Err(ReplayFault::NoStep { at: at as u32 });
        }
    }
    Ok(cut(work, row, hands)?)
}

/// Cuts the row of words by what they are for.
fn cut<W: Work>(
    work: &W,
    mut row: Vec<u64>,
    hands: Vec<ReplayPlace>,
) -> Result<Replayed, AllocError>
    requires words { length row.items ≡ word_total (W.meaning work.now) }
    ensures row { IfOk result (λ r. row.items ≡ row_of r.end r.cells r.states r.counters) }
    ensures parts { IfOk result (λ r. HasParts (W.meaning work.now) r.cells r.states r.counters) }
    ensures hands { IfOk result (λ r. r.hands ≡ hands.items) }
{
    let states = 1 + work.cells() as usize;
    let counters = row.split_off(states + work.items() as usize)?;
    let states = row.split_off(states)?;
    let end = row.remove(0);
    Ok(Replayed {
        cells: WordList::from_vec(row),
        states: WordList::from_vec(states),
        counters: WordList::from_vec(counters),
        end,
        hands: PlaceList::from_vec(hands),
    })
}
