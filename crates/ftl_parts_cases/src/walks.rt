// Calls that are drawn, replayed beside the calls on cells that they ask for. Each line is
// `walk SEED TIMES`. Printed of each walk are the words of the cells in the end, whether each call
// and its replay made the step, or neither did, and said the same of it, the state of the replay in
// the end, and how many reads, fills, marks and deliveries were made; once where all are the same.
ghost use Rattle.std.specs.Prelude.{◌<◌, length};
ghost use Rattle.ftl_cells.specs.shared.Calls.{IsMadeBy};
ghost use Rattle.ftl_parts_cases.specs.Hands.{AreAll};

use crate::agree::{agrees, are_places_of, replay_place};
use crate::calls::write_state;
use crate::hands::{Answer, make, take_hand};
use crate::printing::write_new;
use crate::random::Random;
use crate::requests::{Request, request_in};
use crate::turns::write_close;
use ftl_cells::{Cells, Hand, HandPlace, Work};
use ftl_replay::{Event, ReplayFault, ReplayPlace, Replayed, Solved, replay};
use std::alloc::{AllocError, Global};
use std::fmt::Write;

/// Events that are steps, and the state that they lead to.
#[derive(Drop)]
struct Walk {
    events: Vec<Event>,
    state: Replayed,
    /// Each call and its replay made the step, or neither did, and they said the same of it.
    agrees: bool,
}

/// Tells each line.
pub(crate) fn write_walks_of<W: Solved + Drop>(
    alloc: Global,
    out: &mut String,
    work: &W,
    lines: &str,
) -> Result<(), AllocError> {
    for line in lines.lines() {
        writeln!(out, "{line}:")?;
        write_times(alloc, out, work, request_in(line))?;
    }
    Ok(())
}

fn write_times<W: Solved + Drop>(
    alloc: Global,
    out: &mut String,
    work: &W,
    asked: Request<'_>,
) -> Result<(), AllocError> {
    let mut random = Random {
        state: asked.first as u64,
    };
    let mut shown = String::new(alloc);
    for _ in 0..asked.second {
        let mut walk = String::new(alloc);
        write_walk(alloc, &mut walk, work.again(), &mut random)?;
        shown = write_new(out, shown, walk)?;
    }
    Ok(())
}

/// Draws a walk, goes on to the end, and tells it.
fn write_walk<W: Solved + Drop>(
    alloc: Global,
    out: &mut String,
    work: W,
    random: &mut Random,
) -> Result<(), AllocError> {
    let Ok(state) = replayed(alloc, &work, &[])? else {
        return out.push_str(" no opening");
    };
    let mut walk = Walk {
        events: Vec::new(alloc),
        state,
        agrees: true,
    };
    write_cells(alloc, out, work, &mut walk, random)?;
    write_walked(out, &walk)
}

/// Opens the cells of the work, walks, and tells their words in the end.
fn write_cells<W: Solved + Drop>(
    alloc: Global,
    out: &mut String,
    work: W,
    walk: &mut Walk,
    random: &mut Random,
) -> Result<(), AllocError> {
    let first = work.first(alloc)?;
    let (cells, hand) = Cells::open(alloc, work, first)?;
    write_end(alloc, out, cells, hand, walk, random)
}

/// Tells whether each step agreed, the state in the end, and how often each event came.
fn write_walked(out: &mut String, walk: &Walk) -> Result<(), AllocError> {
    write!(out, "; agrees {}; ", walk.agrees)?;
    write_state(out, &walk.state)?;
    write!(out, "; made {:?}", counts_of(walk.events.as_slice()))
}

/// Walks, and tells the words of the cells in the end.
fn write_end<W: Solved + Drop>(
    alloc: Global,
    out: &mut String,
    cells: Cells<W>,
    hand: Hand,
    walk: &mut Walk,
    random: &mut Random,
) -> Result<(), AllocError>
    requires made { IsMadeBy (W.meaning cells.1) cells.0 hand }
{
    let mut hands = vec![in alloc; Some(hand)]?;
    draw_walk(alloc, &cells, &mut hands, walk, random)?;
    end_walk(alloc, &cells, &mut hands, walk)?;
    let number = ended_number(hands.as_slice()).unwrap_or(0);
    match take_hand(&cells, &mut hands, number) {
        Some(hand) => write_close(out, cells, hand),
        None => out.push_str(" no hand"),
    }
}

/// Draws so many events, and goes on by those that are steps.
fn draw_walk<W: Solved>(
    alloc: Global,
    cells: &Cells<W>,
    hands: &mut Vec<Option<Hand>>,
    walk: &mut Walk,
    random: &mut Random,
) -> Result<(), AllocError>
    requires made { AreAll (IsMadeBy (W.meaning cells.now.1) cells.now.0) hands.old.items }
    ensures made { AreAll (IsMadeBy (W.meaning cells.now.1) cells.now.0) hands.new.items }
{
    for _ in 0..100 {
        let event = random.event(walk.state.hands.as_slice(), cells.work().items().min(999));
        go_on(alloc, cells, hands, walk, event)?;
    }
    Ok(())
}

/// Goes on with each hand until one has ended.
fn end_walk<W: Solved>(
    alloc: Global,
    cells: &Cells<W>,
    hands: &mut Vec<Option<Hand>>,
    walk: &mut Walk,
) -> Result<(), AllocError>
    requires made { AreAll (IsMadeBy (W.meaning cells.now.1) cells.now.0) hands.old.items }
    ensures made { AreAll (IsMadeBy (W.meaning cells.now.1) cells.now.0) hands.new.items }
{
    for _ in 0..1000 {
        if ended_number(hands.as_slice()).is_some() {
            return Ok(());
        }
        go_round(alloc, cells, hands, walk)?;
    }
    Ok(())
}

/// The number of a hand that is Ended.
fn ended_number(hands: &[Option<Hand>]) -> Option<u32> {
    let ended = ReplayPlace::Live(HandPlace::Ended);
    let at = hands.iter().position(|hand| replay_place(hand) == ended)?;
    u32::try_from(at).ok()
}

/// Goes on with each hand at each item.
fn go_round<W: Solved>(
    alloc: Global,
    cells: &Cells<W>,
    hands: &mut Vec<Option<Hand>>,
    walk: &mut Walk,
) -> Result<(), AllocError>
    requires made { AreAll (IsMadeBy (W.meaning cells.now.1) cells.now.0) hands.old.items }
    ensures made { AreAll (IsMadeBy (W.meaning cells.now.1) cells.now.0) hands.new.items }
{
    for item in 0..cells.work().items() {
        go_over(alloc, cells, hands, walk, item)?;
    }
    Ok(())
}

/// Goes on with each hand at the item.
fn go_over<W: Solved>(
    alloc: Global,
    cells: &Cells<W>,
    hands: &mut Vec<Option<Hand>>,
    walk: &mut Walk,
    item: u32,
) -> Result<(), AllocError>
    requires made { AreAll (IsMadeBy (W.meaning cells.now.1) cells.now.0) hands.old.items }
    ensures made { AreAll (IsMadeBy (W.meaning cells.now.1) cells.now.0) hands.new.items }
{
    for hand in 0..hands.len().min(1000) as u32 {
        go_through(alloc, cells, hands, walk, hand, item)?;
    }
    Ok(())
}

/// Tries each kind of call of the hand, and no split and no join.
fn go_through<W: Solved>(
    alloc: Global,
    cells: &Cells<W>,
    hands: &mut Vec<Option<Hand>>,
    walk: &mut Walk,
    hand: u32,
    item: u32,
) -> Result<(), AllocError>
    requires made { AreAll (IsMadeBy (W.meaning cells.now.1) cells.now.0) hands.old.items }
    ensures made { AreAll (IsMadeBy (W.meaning cells.now.1) cells.now.0) hands.new.items }
{
    let kinds = [
        Event::Look { hand, item },
        Event::Claim { hand },
        Event::Read { hand },
        Event::Fill { hand },
        Event::Mark { hand },
        Event::Deliver { hand },
        Event::Left { hand },
    ];
    for event in kinds {
        go_on(alloc, cells, hands, walk, event)?;
    }
    Ok(())
}

/// Makes the call that the event asks for, and replays the list with the event after it. An event
/// that is no step is dropped.
fn go_on<W: Solved>(
    alloc: Global,
    cells: &Cells<W>,
    hands: &mut Vec<Option<Hand>>,
    walk: &mut Walk,
    event: Event,
) -> Result<(), AllocError>
    requires made { AreAll (IsMadeBy (W.meaning cells.now.1) cells.now.0) hands.old.items }
    ensures made { AreAll (IsMadeBy (W.meaning cells.now.1) cells.now.0) hands.new.items }
{
    let made = make(cells, hands, event)?;
    walk.events.push(event)?;
    replay_on(alloc, cells.work(), hands.as_slice(), walk, event, made)
}

/// Replays the list, whose last event is this, beside what its call answered.
fn replay_on<W: Solved>(
    alloc: Global,
    work: &W,
    hands: &[Option<Hand>],
    walk: &mut Walk,
    event: Event,
    made: Option<Answer>,
) -> Result<(), AllocError> {
    match (made, replayed(alloc, work, walk.events.as_slice())?) {
        (Some(answer), Ok(next)) => {
            walk.agrees = walk.agrees
                && agrees(work, &walk.state, &next, event, answer)
                && are_places_of(hands, next.hands.as_slice());
            walk.state = next;
        }
        (None, Err(at)) => {
            walk.agrees = walk.agrees && at as usize + 1 == walk.events.len();
            walk.events.pop();
        }
        _ => {
            walk.agrees = false;
            walk.events.pop();
        }
    }
    Ok(())
}

/// The state that the events lead to, or the place of the first that is no step.
fn replayed<W: Solved>(
    alloc: Global,
    work: &W,
    events: &[Event],
) -> Result<Result<Replayed, u32>, AllocError> {
    if events.len() > 4294967295 {
        return Err(AllocError);
    }
    match replay(alloc, work, work.first(alloc)?, events) {
        Ok(state) => Ok(Ok(state)),
        Err(ReplayFault::NoStep { at }) => Ok(Err(at)),
        Err(ReplayFault::OutOfMemory) => Err(AllocError),
    }
}

/// How many events of a list are reads, fills, marks and deliveries.
fn counts_of(events: &[Event]) -> [u64; 4] {
    let mut counts = [0; 4];
    for event in events {
        match event {
            Event::Read { .. } => count(&mut counts[0]),
            Event::Fill { .. } => count(&mut counts[1]),
            Event::Mark { .. } => count(&mut counts[2]),
            Event::Deliver { .. } => count(&mut counts[3]),
            _ => {}
        }
    }
    counts
}

fn count(of: &mut u64) {
    *of = of.saturating_add(1);
}
