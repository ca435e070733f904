// The count of waiting items: a table of one word, with its rule and its kinds of step.
ghost use Rattle.std.specs.Prelude.{◌≡◌, ◌-◌, ◌<◌, ◌≤◌, IfOk};
ghost use Rattle.std.specs.Bool.{MatchBool};
ghost use Rattle.ftl_pool.specs.Count.{IsCount, IsTallyOf, first_hold, new_hold, after_split};
ghost use Rattle.ftl_pool.specs.Count.{after_load, after_put, after_take, IsMoment};
ghost use Rattle.ftl_pool.specs.Count.{TakesNone, TakesOne};
ghost use Rattle.ftl_pool.specs.Effects.{load_effect, put_effect, take_effect};

use atomic_table::{Play, Seat, Split, Table, TableRule};
use std::alloc::{AllocError, Global};
use std::marker::Model;
use std::sync::Wait;

/// What contracts say of a hold's seat. It has no bytes.
pub(crate) struct SeatView {}

impl Model for SeatView {
    ghost use Rattle.ftl_pool.specs.Count.{Counted, new_hold};

    ghost Value = { Counted };

    ghost view = { λ _. new_hold 0 0 };
}

/// The word and the holds are in a state that steps lead to.
pub(crate) struct Law;

impl TableRule<u8, SeatView, u32> for Law {
    ghost holds = { λ items s. IsCount items s.words s.views };

    ghost first = { λ items. first_hold items };
}

struct LoadPlay;

impl Play<u8, SeatView> for LoadPlay {
    ghost then = { load_effect };
}

struct PutPlay;

impl Play<u8, SeatView> for PutPlay {
    ghost then = { put_effect };
}

struct TakePlay;

impl Play<u8, SeatView> for TakePlay {
    ghost then = { take_effect };
}

struct SplitPlay;

impl Split<SeatView> for SplitPlay {
    ghost use Rattle.std.specs.Prelude.{◌-◌};
    ghost use Rattle.ftl_pool.specs.Count.{after_split, new_hold};

    ghost left = { λ v. after_split v (v.spare - 1) };

    ghost right = { λ v. new_hold v.items 0 };
}

/// How many items wait in a pool.
#[derive(Drop)]
pub(crate) struct Count {
    table: Table<u8, SeatView, u32, Law, Global>,
}

impl Model for Count {
    ghost use Rattle.std.specs.Prelude.{◌≡◌, ◌<◌, ◌^◌};
    ghost use Rattle.ftl_pool.specs.Count.{PoolModel};

    ghost Value = { PoolModel };

    ghost view = { λ c. record { table = c.table.shared.table_id; items = c.table.shared.key } };

    ghost invariant = { λ c. (c.table.shared.table_id.words ≡ 1)
        × (c.table.shared.table_id.slots ≡ 0) × (c.table.shared.key < 2 ^ 32) };
}

/// A hold's seat at the count.
#[derive(Drop)]
pub(crate) struct Tally {
    seat: Seat<u8, SeatView>,
}

impl Model for Tally {
    ghost use Rattle.std.specs.Prelude.{◌≡◌, []};
    ghost use Rattle.ftl_pool.specs.Count.{TallyModel};

    ghost Value = { TallyModel };

    ghost view = { λ t. record { table = t.seat.table_id; state = t.seat.me.0 } };

    ghost invariant = { λ t. t.seat.me.1 ≡ [] };
}

impl Count {
    /// No item waits. The seat is the first.
    pub(crate) fn new(alloc: Global, items: u32) -> Result<(Count, Tally), AllocError>
        ensures items { IfOk result (λ r. r.0.items ≡ items) }
        ensures made { IfOk result (λ r. IsTallyOf r.0 r.1) }
        ensures first { IfOk result (λ r. r.1.state ≡ first_hold items) }
    {
        let (table, seat) = Table::of_words(alloc, &[0], &items)?;
        Ok((Count { table }, Tally { seat }))
    }

    /// Makes another seat of one of which others may be made.
    pub(crate) fn another(&self, tally: &mut Tally) -> Tally
        requires made { IsTallyOf self.now tally.old }
        requires spare { 0 < tally.old.state.spare }
        ensures made { IsTallyOf self.now tally.new }
        ensures effect { tally.new.state
            ≡ after_split tally.old.state (tally.old.state.spare - 1) }
        ensures other { IsTallyOf self.now result }
        ensures new { result.state ≡ new_hold self.now.items 0 }
    {
        Tally {
            seat: self.table.shared.split_seat::<SplitPlay>(&mut tally.seat),
        }
    }

    fn load(&self, tally: &mut Tally) -> u64
        requires made { IsTallyOf self.now tally.old }
        ensures made { IsTallyOf self.now tally.new }
        ensures moment { IsMoment result tally.old.state }
        ensures effect { tally.new.state ≡ after_load tally.old.state result }
    {
        self.table.shared.load::<LoadPlay>(&mut tally.seat, 0)
    }

    /// Takes one from a count of this number, or answers false where it is another by now.
    fn take_from(&self, tally: &mut Tally, count: u64) -> bool
        requires made { IsTallyOf self.now tally.old }
        requires some { 0 < count }
        ensures made { IsTallyOf self.now tally.new }
        ensures effect { MatchBool result (tally.new.state ≡ after_take tally.old.state)
            (tally.new.state ≡ tally.old.state) }
    {
        let shared = &self.table.shared;
        shared.compare_exchange::<TakePlay>(&mut tally.seat, 0, count, count - 1) == count
    }

    /// One more item waits. It is there already: the hold has put `put` items, more than it
    /// counted.
    pub(crate) fn add(&self, tally: &mut Tally, put: usize)
        requires made { IsTallyOf self.now tally.old }
        requires there { tally.old.state.puts < put }
        requires few { put ≤ self.now.items }
        ensures made { IsTallyOf self.now tally.new }
        ensures effect { tally.new.state ≡ after_put tally.old.state }
    {
        self.table
            .shared
            .fetch_add::<PutPlay>(&mut tally.seat, 0, 1);
    }

    /// Takes an item from the count, or answers false where a load found none.
    pub(crate) fn take<R: Wait>(&self, rt: &R, tally: &mut Tally) -> bool
        requires made { IsTallyOf self.now tally.old }
        ensures made { IsTallyOf self.now tally.new }
        ensures effect { MatchBool result (TakesOne tally.old.state tally.new.state)
            (TakesNone tally.old.state tally.new.state) }
    {
        for _ in rt.forever() {
            let count = self.load(tally);
            if count == 0 {
                return false;
            }
            if self.take_from(tally, count) {
                return true;
            }
        }
        unreachable!()
    }
}
