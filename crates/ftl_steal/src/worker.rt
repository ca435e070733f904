// What one worker does.
ghost use Rattle.std.specs.Prelude.{◌≡◌, ◌+◌, ◌<◌};
ghost use Rattle.ftl_cells.specs.shared.Work.{item_total, next_total};
ghost use Rattle.ftl_cells.specs.shared.State.{live, Sends};
ghost use Rattle.ftl_cells.specs.shared.Calls.{IsMadeBy};
ghost use Rattle.ftl_cells.specs.declared.shared.place.HandPlace.TheVariants.{Idle, Ended};
ghost use Rattle.ftl_steal.specs.Workers.{IsMember};

use crate::member::Member;
use ftl_cells::shared::laws::{items_are_released_once, next_items_have_predecessors};
use ftl_cells::{Cells, Claim, Deliver, Look, Work};
use ftl_edge::Gate;
use ftl_pool::{ReadyPool, StealPool};
use std::sync::Wait;
use std::thread;
use std::thread::Parker;
use std::time::Duration;

/// How often a worker yields before it sleeps.
const IDLE_YIELDS: u32 = 32;

/// How long it sleeps at a time, in microseconds.
const IDLE_MICROS: u64 = 50;

/// Takes items until none is left to any worker.
pub(crate) fn work<R: Wait, W: Work, G: Gate>(
    rt: &R,
    cells: &Cells<W>,
    pool: &StealPool,
    gate: &G,
    member: &mut Member,
)
    requires member { IsMember (W.meaning cells.now.1) cells.now.0 pool.now member.old }
    requires idle { member.old.hand.state.place ≡ live Idle }
    requires items { pool.now.items ≡ item_total (W.meaning cells.now.1) }
    ensures made { IsMadeBy (W.meaning cells.now.1) cells.now.0 member.new.hand }
    ensures ended { member.new.hand.state.place ≡ live Ended }
    ensures stepped { 0 < member.new.hand.state.count }
{
    let parker = Parker::new();
    let mut idle = 0;
    for _ in rt.forever() {
        if let Some(item) = pool.take(rt, &mut member.hold) {
            gate.before(member.number, item);
            run_item(rt, cells, pool, member, item);
            idle = 0;
        } else if cells.left(&mut member.hand) == 0 {
            return;
        } else {
            idle = rest(rt, &parker, idle);
        }
    }
    unreachable!()
}

/// Lets others go on after so many idle turns, at first by a yield and then by a short sleep, so
/// that a worker with nothing to do takes no time from one on the same core. Tells the turns now.
fn rest<R: Wait>(rt: &R, parker: &Parker, idle: u32) -> u32 {
    if idle < IDLE_YIELDS {
        thread::yield_now();
        return idle + 1;
    }
    parker.park_timeout(rt, Duration::from_micros(IDLE_MICROS));
    idle
}

/// Fills an item and delivers it, if it is there to take.
fn run_item<R: Wait, W: Work>(
    rt: &R,
    cells: &Cells<W>,
    pool: &StealPool,
    member: &mut Member,
    item: u32,
)
    requires member { IsMember (W.meaning cells.now.1) cells.now.0 pool.now member.old }
    requires idle { member.old.hand.state.place ≡ live Idle }
    requires items { pool.now.items ≡ item_total (W.meaning cells.now.1) }
    requires item { item < item_total (W.meaning cells.now.1) }
    ensures member { IsMember (W.meaning cells.now.1) cells.now.0 pool.now member.new }
    ensures idle { member.new.hand.state.place ≡ live Idle }
{
    let Look::Ready = cells.look(&mut member.hand, item) else {
        return;
    };
    let Claim::Mine = cells.claim(&mut member.hand) else {
        return;
    };
    cells.fill_item(&mut member.hand, &mut member.reads, &mut member.stack);
    cells.mark(&mut member.hand);
    for sent in 0..cells.work().next_count(item) {
        send(rt, cells, pool, member, item, sent);
    }
    cells.deliver(&mut member.hand);
}

/// Makes one delivery, and puts the item that it was the last for.
fn send<R: Wait, W: Work>(
    rt: &R,
    cells: &Cells<W>,
    pool: &StealPool,
    member: &mut Member,
    item: u32,
    sent: u32,
)
    requires member { IsMember (W.meaning cells.now.1) cells.now.0 pool.now member.old }
    requires at { Sends member.old.hand.state.place item sent }
    requires items { pool.now.items ≡ item_total (W.meaning cells.now.1) }
    requires item { item < item_total (W.meaning cells.now.1) }
    requires sent { sent < next_total (W.meaning cells.now.1) item }
    ensures member { IsMember (W.meaning cells.now.1) cells.now.0 pool.now member.new }
    ensures at { Sends member.new.hand.state.place item (sent + 1) }
{
    items_are_released_once();
    next_items_have_predecessors();
    // Each work is lawful.
    let _items = cells.work().items();
    if let Deliver::Sent { next, last: true } = cells.deliver(&mut member.hand) {
        pool.put(rt, &mut member.hold, next);
    }
}
