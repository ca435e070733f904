ghost use Rattle.std.specs.Prelude.{◌≡◌, ◌+◌, ◌<◌, ◌≤◌, [], ◌∷◌, ◌++◌, vec_len};
ghost use Rattle.std.specs.Prelude.{slice_index_or, slice_range, slice_set};
ghost use Rattle.std.specs.Prelude.{IfOk, IfSome, IfNone, OnOk, OnErr, None};
ghost use Rattle.std.specs.List.{All};
ghost use Rattle.ftl_pool.specs.Count.{IsTallyOf, Takes, first_hold, after_put};
ghost use Rattle.ftl_pool.specs.Pool.{IsHoldOf, IsNew, IsFreshStealHoldOf};
ghost use Rattle.ftl_pool.specs.Pool.{HasDeques, KeepsDeques, StealFromOthers, StealsFromNone};
ghost use Rattle.ftl_pool.specs.Pool.{own_deques, stolen_deques};
ghost use Rattle.ftl_pool.specs.Deque.{TakesFromOne, Joins};

use crate::count::{Count, Tally};
use crate::deque::{Own, Thief, steal_once};
use crate::ready_pool::ReadyPool;
use std::alloc::{AllocError, Global};
use std::marker::Model;
use std::sync::Wait;
use std::thread;

/// A pool with a deque for each hold. An item is put on the own deque, and taken from the own one
/// first.
#[derive(Drop)]
pub struct StealPool {
    count: Count,
    items: u32,
}

impl Model for StealPool {
    ghost use Rattle.std.specs.Prelude.{◌≡◌};
    ghost use Rattle.ftl_pool.specs.Count.{PoolModel};

    ghost Value = { PoolModel };

    ghost view = { λ p. p.count };

    ghost invariant = { λ p. p.items ≡ p.count.items };
}

/// What one worker puts and takes through: its own deque, and a thief of each other one.
#[derive(Drop)]
pub struct StealHold {
    tally: Tally,
    own: Own,
    thieves: Vec<Thief>,
}

impl Model for StealHold {
    ghost use Rattle.std.specs.Prelude.{◌≡◌, ◌∷◌, map};
    ghost use Rattle.ftl_pool.specs.Pool.{StealHoldModel, ArePut};

    ghost Value = { StealHoldModel };

    ghost view = { λ h. record {
      hold = record { table = h.tally.table; state = h.tally.state; puts = h.own.put };
      own = h.own.deque;
      others = map (λ t. t.deque) h.thieves.items;
      taken = h.own.taken ∷ map (λ t. t.pass.taken) h.thieves.items;
    } };

    ghost invariant = { λ h. ArePut h.tally.state h.own.put
        × (h.own.room ≡ h.tally.state.items) };
}

impl StealPool {
    /// An empty pool, and a hold for each worker. All memory is taken here.
    pub fn new(
        alloc: Global,
        workers: u32,
        items: u32,
    ) -> Result<(StealPool, Vec<StealHold>), AllocError>
        requires some { 0 < workers }
        requires few { workers ≤ 64 }
        ensures items { IfOk result (λ r. r.0.items ≡ items) }
        ensures holds { IfOk result (λ r. vec_len r.1 ≡ workers) }
        ensures fresh { IfOk result (λ r. All (IsFreshStealHoldOf r.0) r.1.items) }
        ensures deques { IfOk result (λ r. All (HasDeques workers) r.1.items) }
        ensures others { IfOk result (λ r. StealFromOthers r.1.items) }
    {
        let (count, tally) = Count::new(alloc, items)?;
        let mut holds = make_holds(alloc, &count, tally, workers, items)?;
        add_thieves(&count, &mut holds)?;
        Ok((StealPool { count, items }, holds))
    }
}

impl ReadyPool for StealPool {
    type Hold = StealHold;

    ghost pool_of = { λ p. p };

    ghost hold_of = { λ h. h.hold };

    fn put<R: Wait>(&self, rt: &R, hold: &mut StealHold, item: u32)
        requires made { IsHoldOf self.now hold.old.hold }
        requires item { item < self.now.items }
        requires new { IsNew item hold.old.hold.puts }
        ensures made { IsHoldOf self.now hold.new.hold }
        ensures puts { hold.new.hold.puts ≡ hold.old.hold.puts ++ item ∷ [] }
        ensures counted { hold.new.hold.state ≡ after_put hold.old.hold.state }

        // Nothing is taken.
        ensures stays { hold.new.taken ≡ hold.old.taken }
        ensures deques { KeepsDeques hold.old hold.new }
    {
        hold.own.push(item);
        self.count.add(&mut hold.tally, hold.own.count());
    }

    fn take<R: Wait>(&self, rt: &R, hold: &mut StealHold) -> Option<u32>
        requires made { IsHoldOf self.now hold.old.hold }
        ensures made { IsHoldOf self.now hold.new.hold }
        ensures puts { hold.new.hold.puts ≡ hold.old.hold.puts }
        ensures item { IfSome result (λ item. item < self.now.items) }
        ensures counted { Takes hold.old.hold.state result hold.new.hold.state }

        // What comes from which deque.
        ensures joins { IfSome result
            (λ item. Joins self.now.items hold.old.taken item hold.new.taken) }
        ensures stays { IfNone result (hold.new.taken ≡ hold.old.taken) }
        ensures deques { KeepsDeques hold.old hold.new }
    {
        if self.count.take(rt, &mut hold.tally) {
            Some(hold.find(rt, self.items))
        } else {
            None
        }
    }
}

impl StealHold {
    /// Through which nothing was put, with no thief of another deque.
    fn new(alloc: Global, tally: Tally, items: u32, thieves: usize) -> Result<StealHold, AllocError>
        requires items { tally.state.items ≡ items }
        requires puts { tally.state.puts ≡ 0 }
        ensures table { IfOk result (λ h. h.hold.table ≡ tally.table) }
        ensures state { IfOk result (λ h. h.hold.state ≡ tally.state) }
        ensures puts { IfOk result (λ h. h.hold.puts ≡ []) }
        ensures others { IfOk result StealsFromNone }
        ensures taken { IfOk result (λ h. h.taken ≡ [] ∷ []) }
    {
        let own = Own::new(alloc, items)?;
        let thieves = Vec::with_capacity(alloc, thieves)?;
        Ok(StealHold {
            tally,
            own,
            thieves,
        })
    }

    /// Adds a thief of another deque.
    fn add_thief(&mut self, thief: Thief) -> Result<(), AllocError>
        ensures hold { self.new.hold ≡ self.old.hold }
        ensures own { self.new.own ≡ self.old.own }
        ensures others { OnOk result (self.new.others ≡ self.old.others ++ thief.deque ∷ []) }
        ensures taken { OnOk result (self.new.taken ≡ self.old.taken ++ thief.pass.taken ∷ []) }
        ensures stays { OnErr result (self.new ≡ self.old) }
    {
        self.thieves.push(thief)?;
        Ok(())
    }

    /// Looks once into each deque, the own one first.
    fn find_once(&mut self) -> Option<u32>
        ensures hold { self.new.hold ≡ self.old.hold }
        ensures deques { KeepsDeques self.old self.new }
        ensures taken { TakesFromOne self.old.taken result self.new.taken }
    {
        if let Some(item) = self.own.pop() {
            return Some(item);
        }
        steal_once(&mut self.thieves)
    }

    #[tactic(auto, using(crate::proofs::Taking::none_outside))]
    /// Looks until it has an item below this number.
    fn find<R: Wait>(&mut self, rt: &R, items: u32) -> u32
        ensures item { result < items }
        ensures hold { self.new.hold ≡ self.old.hold }
        ensures deques { KeepsDeques self.old self.new }
        ensures joins { Joins items self.old.taken result self.new.taken }
    {
        for _ in rt.forever() {
            let found = self.find_once();
            if let Some(item) = found {
                if item < items {
                    return item;
                }
            } else {
                thread::yield_now();
            }
        }
        unreachable!()
    }
}

/// A hold for each worker, of which the last has the first seat.
fn make_holds(
    alloc: Global,
    count: &Count,
    mut tally: Tally,
    workers: u32,
    items: u32,
) -> Result<Vec<StealHold>, AllocError>
    requires items { count.now.items ≡ items }
    requires made { IsTallyOf count.now tally }
    requires first { tally.state ≡ first_hold items }
    requires some { 0 < workers }
    requires few { workers ≤ 64 }
    ensures holds { IfOk result (λ holds. vec_len holds ≡ workers) }
    ensures fresh { IfOk result (λ holds. All (IsFreshStealHoldOf count.now) holds.items) }
    ensures others { IfOk result (λ holds. All StealsFromNone holds.items) }
{
    let thieves = workers as usize - 1;
    let mut holds = Vec::with_capacity(alloc, workers as usize)?;
    for _ in 1..workers {
        let other = count.another(&mut tally);
        holds.push(make_hold(alloc, count, other, items, thieves)?)?;
    }
    holds.push(make_hold(alloc, count, tally, items, thieves)?)?;
    Ok(holds)
}

#[tactic(auto, using(crate::proofs::Putting::is_fresh))]
/// A hold through which nothing was put or taken.
fn make_hold(
    alloc: Global,
    _count: &Count,
    tally: Tally,
    items: u32,
    thieves: usize,
) -> Result<StealHold, AllocError>
    requires items { _count.now.items ≡ items }
    requires made { IsTallyOf _count.now tally }
    requires puts { tally.state.puts ≡ 0 }
    requires takes { tally.state.takes ≡ 0 }
    requires loads { tally.state.loads ≡ 0 }
    requires last { tally.state.last ≡ None }
    ensures fresh { IfOk result (IsFreshStealHoldOf _count.now) }
    ensures others { IfOk result StealsFromNone }
{
    let hold = StealHold::new(alloc, tally, items, thieves)?;
    Ok(hold)
}

/// Gives each hold a thief of each other deque, beginning with that of the next worker.
fn add_thieves(count: &Count, holds: &mut Vec<StealHold>) -> Result<(), AllocError>
    requires fresh { All (IsFreshStealHoldOf count.now) holds.old.items }
    requires others { All StealsFromNone holds.old.items }
    ensures holds { vec_len holds.new ≡ vec_len holds.old }
    ensures fresh { All (IsFreshStealHoldOf count.now) holds.new.items }
    ensures deques { OnOk result (All (HasDeques (vec_len holds.new)) holds.new.items) }
    ensures others { OnOk result (StealFromOthers holds.new.items) }
{
    let workers = holds.len();
    for worker in 0..workers {
        add_thieves_between(count, holds, worker, worker + 1, workers)?;
        add_thieves_between(count, holds, worker, 0, worker)?;
    }
    Ok(())
}

/// Gives one hold a thief of the deque of each hold from the first number to below the second.
fn add_thieves_between(
    count: &Count,
    holds: &mut Vec<StealHold>,
    worker: usize,
    first: usize,
    end: usize,
) -> Result<(), AllocError>
    requires fresh { All (IsFreshStealHoldOf count.now) holds.old.items }
    requires worker { worker < vec_len holds.old }
    requires first { first ≤ end }
    requires end { end ≤ vec_len holds.old }
    ensures holds { vec_len holds.new ≡ vec_len holds.old }
    ensures fresh { All (IsFreshStealHoldOf count.now) holds.new.items }
    ensures own { own_deques holds.new.items ≡ own_deques holds.old.items }
    ensures others { OnOk result (stolen_deques holds.new.items
        ≡ slice_set (stolen_deques holds.old.items) worker
        (slice_index_or (stolen_deques holds.old.items) worker []
        ++ slice_range (own_deques holds.old.items) first end)) }
{
    for other in first..end {
        add_thief_of(count, holds, worker, other)?;
    }
    Ok(())
}

/// Gives one hold a thief of the deque of another.
fn add_thief_of(
    _count: &Count,
    holds: &mut Vec<StealHold>,
    worker: usize,
    other: usize,
) -> Result<(), AllocError>
    requires fresh { All (IsFreshStealHoldOf _count.now) holds.old.items }
    requires worker { worker < vec_len holds.old }
    requires other { other < vec_len holds.old }
    ensures holds { vec_len holds.new ≡ vec_len holds.old }
    ensures fresh { All (IsFreshStealHoldOf _count.now) holds.new.items }
    ensures own { own_deques holds.new.items ≡ own_deques holds.old.items }
    ensures others { OnOk result (stolen_deques holds.new.items
        ≡ slice_set (stolen_deques holds.old.items) worker
        (slice_index_or (stolen_deques holds.old.items) worker []
        ++ slice_range (own_deques holds.old.items) other (other + 1))) }
{
    let thief = holds[other].own.thief()?;
    holds[worker].add_thief(thief)?;
    Ok(())
}
