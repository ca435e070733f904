ghost use Rattle.std.specs.Prelude.{◌≡◌, ◌<◌, ◌≤◌, [], IfOk, vec_len};
ghost use Rattle.std.specs.List.{All};
ghost use Rattle.ftl_pool.specs.Count.{IsTallyOf, first_hold};
ghost use Rattle.ftl_pool.specs.Pool.{IsFreshHoldOf};

use crate::count::{Count, Tally};
use crate::flag_row::FlagRow;
use crate::ready_pool::ReadyPool;
use std::alloc::{AllocError, Global};
use std::marker::Model;
use std::sync::{Mutex, Wait};
use std::thread;

/// A pool whose items are flags of one row behind one lock: the least item is taken first.
#[derive(Drop)]
pub struct FlagPool {
    count: Count,
    row: Mutex<FlagRow>,
    items: u32,
}

impl Model for FlagPool {
    ghost use Rattle.std.specs.Prelude.{◌≡◌};
    ghost use Rattle.ftl_pool.specs.Count.{PoolModel};

    ghost Value = { PoolModel };

    ghost view = { λ p. p.count };

    ghost invariant = { λ p. p.items ≡ p.count.items };
}

/// What one worker puts and takes through.
#[derive(Drop)]
pub struct FlagHold {
    tally: Tally,
    /// The items that were put, with room for all.
    puts: Vec<u32>,
}

impl Model for FlagHold {
    ghost use Rattle.std.specs.Prelude.{◌≤◌, vec_capacity};
    ghost use Rattle.ftl_pool.specs.Pool.{HoldModel, ArePut};

    ghost Value = { HoldModel };

    ghost view = { λ h. record
        { table = h.tally.table; state = h.tally.state; puts = h.puts.items } };

    ghost invariant = { λ h. ArePut h.tally.state h.puts.items
        × (h.tally.state.items ≤ vec_capacity h.puts) };
}

impl FlagPool {
    /// An empty pool, and a hold for each worker. All memory is taken here.
    pub fn new(
        alloc: Global,
        workers: u32,
        items: u32,
    ) -> Result<(FlagPool, Vec<FlagHold>), AllocError>
        requires some { 0 < workers }
        requires few { workers ≤ 64 }
        ensures items { IfOk result (λ r. r.0.items ≡ items) }
        ensures holds { IfOk result (λ r. vec_len r.1 ≡ workers) }
        ensures fresh { IfOk result (λ r. All (IsFreshHoldOf r.0) r.1.items) }
    {
        let (count, tally) = Count::new(alloc, items)?;
        let holds = make_holds(alloc, &count, tally, workers, items)?;
        let row = Mutex::new(FlagRow::new(alloc, items)?);
        Ok((FlagPool { count, row, items }, holds))
    }
}

impl FlagPool {
    /// Raises the item's flag, where the row has it.
    fn raise<R: Wait>(&self, rt: &R, item: u32) {
        let mut row = self.row.lock(rt);
        if item < row.items() {
            row.raise(item);
        }
    }

    /// Lowers a flag, again and again, until it has one of an item.
    fn find<R: Wait>(&self, rt: &R) -> u32
        ensures item { result < self.now.items }
    {
        for _ in rt.forever() {
            let lowered = self.row.lock(rt).lower();
            if let Some(item) = lowered {
                if item < self.items {
                    return item;
                }
            }
            thread::yield_now();
        }
        unreachable!()
    }
}

impl ReadyPool for FlagPool {
    type Hold = FlagHold;

    ghost pool_of = { λ p. p };

    ghost hold_of = { λ h. h };

    fn put<R: Wait>(&self, rt: &R, hold: &mut FlagHold, item: u32) {
        self.raise(rt, item);
        hold.puts.push(item).unwrap();
        self.count.add(&mut hold.tally, hold.puts.len());
    }

    fn take<R: Wait>(&self, rt: &R, hold: &mut FlagHold) -> Option<u32> {
        if self.count.take(rt, &mut hold.tally) {
            Some(self.find(rt))
        } else {
            None
        }
    }
}

impl FlagHold {
    /// Through which nothing was put.
    fn new(alloc: Global, tally: Tally, items: u32) -> Result<FlagHold, AllocError>
        requires items { tally.state.items ≡ items }
        requires puts { tally.state.puts ≡ 0 }
        ensures tally { IfOk result (λ h. (h.table ≡ tally.table) × (h.state ≡ tally.state)) }
        ensures puts { IfOk result (λ h. h.puts ≡ []) }
    {
        let puts = Vec::with_capacity(alloc, items as usize)?;
        Ok(FlagHold { tally, puts })
    }
}

/// A hold for each worker, of which the last has the first seat.
fn make_holds(
    alloc: Global,
    count: &Count,
    mut tally: Tally,
    workers: u32,
    items: u32,
) -> Result<Vec<FlagHold>, AllocError>
    requires items { count.now.items ≡ items }
    requires made { IsTallyOf count.now tally }
    requires first { tally.state ≡ first_hold items }
    requires some { 0 < workers }
    requires few { workers ≤ 64 }
    ensures holds { IfOk result (λ holds. vec_len holds ≡ workers) }
    ensures fresh { IfOk result (λ holds. All (IsFreshHoldOf count.now) holds.items) }
{
    let mut holds = Vec::with_capacity(alloc, workers as usize)?;
    for _ in 1..workers {
        let hold = FlagHold::new(alloc, count.another(&mut tally), items)?;
        holds.push(hold)?;
    }
    holds.push(FlagHold::new(alloc, tally, items)?)?;
    Ok(holds)
}
