// Whole works, by one hand, by hands that take turns and by threads.
ghost use Rattle.std.specs.Prelude.{◌≡◌, IfSome};
ghost use Rattle.ftl_cells.specs.shared.State.{live};
ghost use Rattle.ftl_cells.specs.shared.Calls.{IsMadeBy};
ghost use Rattle.ftl_cells.specs.declared.shared.place.HandPlace.TheVariants.{Idle, Ended};

use crate::hands::is_free;
use crate::printing::write_words;
use crate::take::take;
use ftl_base::CodeStack;
use ftl_cells::{Cells, Hand, HandPlace, Work};
use ftl_replay::Example;
use std::alloc::{AllocError, Global};
use std::fmt::Write;
use std::thread::{Threads, join};

/// Takes all items once, and says how many were there to take.
fn round<W: Work>(alloc: Global, cells: &Cells<W>, hand: &mut Hand) -> Result<u32, AllocError>
    requires made { IsMadeBy (W.meaning cells.now.1) cells.now.0 hand.old }
    requires idle { hand.old.state.place ≡ live Idle }
    ensures made { IsMadeBy (W.meaning cells.now.1) cells.now.0 hand.new }
    ensures idle { hand.new.state.place ≡ live Idle }
{
    let mut reads = Vec::with_capacity(alloc, cells.work().max_reads() as usize)?;
    let mut stack = CodeStack::new(alloc, cells.work().max_stack())?;
    let mut taken = 0;
    for item in 0..cells.work().items() {
        if take(cells, hand, item, &mut reads, &mut stack) {
            taken += 1;
        }
    }
    Ok(taken)
}

/// Takes items until all are filled.
fn work_off<W: Work>(alloc: Global, cells: &Cells<W>, mut hand: Hand) -> Option<Hand>
    requires made { IsMadeBy (W.meaning cells.now.1) cells.now.0 hand }
    requires idle { hand.state.place ≡ live Idle }
    ensures made { IfSome result (IsMadeBy (W.meaning cells.now.1) cells.now.0) }
    ensures ended { IfSome result (λ h. h.state.place ≡ live Ended) }
{
    for _ in 0..u64::MAX {
        round(alloc, cells, &mut hand).ok()?;
        cells.left(&mut hand);
        if let HandPlace::Ended = hand.place() {
            return Some(hand);
        }
    }
    None
}

/// Takes the items of the chain in order, by three hands in turns, and says whether each was there.
fn take_turns<W: Work>(
    alloc: Global,
    cells: &Cells<W>,
    a: &mut Hand,
    b: &mut Hand,
    c: &mut Hand,
) -> Result<bool, AllocError>
    requires one { IsMadeBy (W.meaning cells.now.1) cells.now.0 a.old }
    requires two { IsMadeBy (W.meaning cells.now.1) cells.now.0 b.old }
    requires three { IsMadeBy (W.meaning cells.now.1) cells.now.0 c.old }
    requires one_idle { a.old.state.place ≡ live Idle }
    requires two_idle { b.old.state.place ≡ live Idle }
    requires three_idle { c.old.state.place ≡ live Idle }
    ensures one { IsMadeBy (W.meaning cells.now.1) cells.now.0 a.new }
    ensures two { IsMadeBy (W.meaning cells.now.1) cells.now.0 b.new }
    ensures three { IsMadeBy (W.meaning cells.now.1) cells.now.0 c.new }
{
    let mut reads = Vec::with_capacity(alloc, cells.work().max_reads() as usize)?;
    let mut stack = CodeStack::new(alloc, cells.work().max_stack())?;
    let mut all = true;
    for item in 0..cells.work().items() {
        let taken = match item % 3 {
            0 => take(cells, a, item, &mut reads, &mut stack),
            1 => take(cells, b, item, &mut reads, &mut stack),
            _ => take(cells, c, item, &mut reads, &mut stack),
        };
        all = all && taken;
    }
    Ok(all)
}

/// Whether the hand is Idle and finds the common end. It is Ended then.
fn finds_end<W: Work>(cells: &Cells<W>, hand: &mut Hand) -> bool
    requires made { IsMadeBy (W.meaning cells.now.1) cells.now.0 hand.old }
    ensures made { IsMadeBy (W.meaning cells.now.1) cells.now.0 hand.new }
{
    let HandPlace::Idle = hand.place() else {
        return false;
    };
    cells.left(hand) == 0 && hand.place() == HandPlace::Ended
}

/// Whether the hand takes in the other.
fn takes_in<W: Work>(cells: &Cells<W>, hand: &mut Hand, other: Hand) -> bool
    requires made { IsMadeBy (W.meaning cells.now.1) cells.now.0 hand.old }
    requires other { IsMadeBy (W.meaning cells.now.1) cells.now.0 other }
    ensures made { IsMadeBy (W.meaning cells.now.1) cells.now.0 hand.new }
{
    let free = is_free(hand) && is_free(&other);
    if free {
        cells.give_up(hand, other);
    }
    free
}

fn is_idle(hand: &Hand) -> bool {
    matches!(hand.place(), HandPlace::Idle)
}

/// Tells the words of the cells, where the hand has found the end.
pub(crate) fn write_close<W: Work + Drop>(
    out: &mut String,
    cells: Cells<W>,
    hand: Hand,
) -> Result<(), AllocError>
    requires made { IsMadeBy (W.meaning cells.1) cells.0 hand }
{
    match hand.place() {
        HandPlace::Ended => write_words(out, cells.close(hand).as_slice()),
        _ => out.push_str(" not at the end"),
    }
}

/// By one hand, so many rounds: how many items each took, and the words.
pub(crate) fn by_rounds<W: Example + Drop>(
    alloc: Global,
    work: W,
    rounds: u32,
) -> Result<String, AllocError> {
    let first = work.first(alloc)?;
    let (cells, mut hand) = Cells::open(alloc, work, first)?;
    let mut out = String::new(alloc);
    write_rounds(&mut out, alloc, &cells, &mut hand, rounds)?;
    if finds_end(&cells, &mut hand) {
        write_close(&mut out, cells, hand)?;
    }
    Ok(out)
}

fn write_rounds<W: Work>(
    out: &mut String,
    alloc: Global,
    cells: &Cells<W>,
    hand: &mut Hand,
    rounds: u32,
) -> Result<(), AllocError>
    requires made { IsMadeBy (W.meaning cells.now.1) cells.now.0 hand.old }
    requires idle { hand.old.state.place ≡ live Idle }
    ensures made { IsMadeBy (W.meaning cells.now.1) cells.now.0 hand.new }
{
    for _ in 0..rounds {
        write!(out, " took {},", round(alloc, cells, hand)?)?;
    }
    Ok(())
}

/// By three hands in turns, each of which finds its item there. All are Idle after it, and the
/// second finds the end, and the first after it took in the others: then the words.
pub(crate) fn by_turns<W: Example + Drop>(alloc: Global, work: W) -> Result<String, AllocError> {
    let first = work.first(alloc)?;
    let (cells, mut a) = Cells::open(alloc, work, first)?;
    let mut b = cells.another(&mut a);
    let mut c = cells.another(&mut a);
    let all = take_turns(alloc, &cells, &mut a, &mut b, &mut c)?;
    let mut out = String::new(alloc);
    if all && end_turns(&cells, &mut a, b, c) {
        write_close(&mut out, cells, a)?;
    }
    Ok(out)
}

/// Whether all three are Idle, and the second and then the first find the end.
fn end_turns<W: Work>(cells: &Cells<W>, a: &mut Hand, mut b: Hand, c: Hand) -> bool
    requires one { IsMadeBy (W.meaning cells.now.1) cells.now.0 a.old }
    requires two { IsMadeBy (W.meaning cells.now.1) cells.now.0 b }
    requires three { IsMadeBy (W.meaning cells.now.1) cells.now.0 c }
    ensures one { IsMadeBy (W.meaning cells.now.1) cells.now.0 a.new }
{
    let idle = is_idle(a) && is_idle(&b) && is_idle(&c);
    let found = finds_end(cells, &mut b);
    let second = takes_in(cells, a, b);
    let third = takes_in(cells, a, c);
    idle && found && second && third && finds_end(cells, a)
}

/// By two threads, each with a hand of its own that takes items until all are filled: the words.
pub(crate) fn by_two_threads<R: Threads + Sync, W: Example + Drop>(
    rt: &R,
    alloc: Global,
    work: W,
) -> Result<String, AllocError> {
    let first = work.first(alloc)?;
    let (cells, mut a) = Cells::open(alloc, work, first)?;
    let b = cells.another(&mut a);
    let (a, b) = join(
        rt,
        || -> Option<Hand>
            requires made { IsMadeBy (W.meaning cells.1) cells.0 a }
            requires idle { a.state.place ≡ live Idle }
            ensures made { IfSome result (IsMadeBy (W.meaning cells.1) cells.0) }
            ensures ended { IfSome result (λ h. h.state.place ≡ live Ended) }
        { work_off(alloc, &cells, a) },
        || -> Option<Hand>
            requires made { IsMadeBy (W.meaning cells.1) cells.0 b }
            requires idle { b.state.place ≡ live Idle }
            ensures made { IfSome result (IsMadeBy (W.meaning cells.1) cells.0) }
            ensures ended { IfSome result (λ h. h.state.place ≡ live Ended) }
        { work_off(alloc, &cells, b) },
    );
    let mut out = String::new(alloc);
    if let (Some(mut a), Some(b)) = (a, b) {
        cells.give_up(&mut a, b);
        write_close(&mut out, cells, a)?;
    }
    Ok(out)
}
