// A deque of items under its rule: its owner's end, and the thieves of other holds.
ghost use Rattle.std.specs.Prelude.{◌≡◌, ◌+◌, ◌<◌, ◌≤◌, [], ◌∷◌, ◌++◌, length, IfOk};
ghost use Rattle.ftl_pool.specs.Deque.{TakesItem, ThiefTakes, OneThiefTakes, new_thief};

use crossbeam_deque::protocol::{Outcome, Protocol};
use crossbeam_deque::{Pass, Steal, Stealer, Worker};
use std::alloc::{AllocError, Global};
use std::marker::Model;

/// What contracts say of a pass. It has no bytes.
pub(crate) struct Passed {}

impl Model for Passed {
    ghost use Rattle.ftl_pool.specs.Deque.{PassModel, new_pass};

    ghost Value = { PassModel };

    ghost view = { λ _. new_pass };
}

/// What was put is what was taken and what is there.
pub(crate) struct Fair;

impl Protocol<u32, Passed> for Fair {
    ghost use Rattle.ftl_pool.specs.Deque.{IsFair, new_pass};

    ghost holds = { IsFair };

    ghost first = { new_pass };

    ghost guest = { new_pass };
}

struct Puts;

impl Outcome<u32, Passed> for Puts {
    ghost use Rattle.ftl_pool.specs.Deque.{puts_effect};

    ghost then = { puts_effect };
}

struct Takes;

impl Outcome<u32, Passed> for Takes {
    ghost use Rattle.ftl_pool.specs.Deque.{takes_effect};

    ghost then = { takes_effect };
}

/// The owner's end.
#[derive(Drop)]
pub(crate) struct Own {
    deque: Worker<u32, Global, Passed, Fair>,
    room: u32,
    count: usize,
}

impl Model for Own {
    ghost use Rattle.std.specs.Prelude.{◌≡◌, ◌≤◌, length};
    ghost use Rattle.crossbeam_deque.specs.Handles.{worker_view, worker_flavor};
    ghost use Rattle.crossbeam_deque.specs.Handles.{worker_capacity, worker_deque, worker_index};
    ghost use Rattle.ftl_pool.specs.Deque.{OwnModel};

    ghost Value = { OwnModel };

    ghost view = { λ o. record {
      deque = (worker_deque o.deque).0;
      put = (worker_view o.deque).put;
      taken = (worker_view o.deque).taken;
      room = o.room;
    } };

    ghost invariant = { λ o. (worker_flavor o.deque ≡ 0) × (o.room ≤ worker_capacity o.deque)
        × (worker_index o.deque ≤ o.count) × (o.count ≡ length (worker_view o.deque).put) };
}

impl Own {
    /// An empty deque, with room for all that is ever put.
    pub(crate) fn new(alloc: Global, room: u32) -> Result<Own, AllocError>
        ensures empty { IfOk result (λ o. o ≡ record {
          deque = o.deque;
          put = [];
          taken = [];
          room = room;
        }) }
    {
        let deque = Worker::fifo_as(alloc, room as usize)?;
        Ok(Own {
            deque,
            room,
            count: 0,
        })
    }

    /// How many items were put.
    pub(crate) fn count(&self) -> usize
        ensures count { result ≡ length self.now.put }
    {
        self.count
    }

    pub(crate) fn push(&mut self, item: u32)
        requires has_room { length self.old.put < self.old.room }
        ensures deque { self.new.deque ≡ self.old.deque }
        ensures put { self.new.put ≡ self.old.put ++ item ∷ [] }
        ensures taken { self.new.taken ≡ self.old.taken }
        ensures room { self.new.room ≡ self.old.room }
    {
        let Ok(()) = self.deque.push_as::<Puts>(item) else {
            unreachable!()
        };
        self.count += 1;
    }

    /// Takes the first item.
    pub(crate) fn pop(&mut self) -> Option<u32>
        ensures deque { self.new.deque ≡ self.old.deque }
        ensures put { self.new.put ≡ self.old.put }
        ensures taken { TakesItem self.old.taken result self.new.taken }
        ensures room { self.new.room ≡ self.old.room }
    {
        self.deque.pop_as::<Takes>()
    }

    /// A thief of this deque, for another hold.
    pub(crate) fn thief(&self) -> Result<Thief, AllocError>
        ensures new { IfOk result (λ t. t ≡ new_thief self.now.deque) }
    {
        let stealer = self.deque.stealer()?;
        let pass = stealer.pass();
        Ok(Thief { stealer, pass })
    }
}

/// What takes items from the deque of another hold.
#[derive(Drop)]
pub(crate) struct Thief {
    stealer: Stealer<u32, Global, Passed, Fair>,
    pass: Pass<u32, Passed>,
}

impl Model for Thief {
    ghost use Rattle.crossbeam_deque.specs.Handles.{IsPassOf, stealer_deque};
    ghost use Rattle.crossbeam_deque.specs.Handles.{view as pass_view};
    ghost use Rattle.ftl_pool.specs.Deque.{ThiefModel};

    ghost Value = { ThiefModel };

    ghost view = { λ t. record {
      deque = (stealer_deque t.stealer).0;
      pass = pass_view t.pass;
    } };

    ghost invariant = { λ t. IsPassOf (stealer_deque t.stealer) t.pass };
}

impl Thief {
    /// Takes the first item of the deque, or none where it found none or another took it.
    pub(crate) fn steal(&mut self) -> Option<u32>
        ensures taken { ThiefTakes self.old result self.new }
    {
        match self.stealer.steal_as::<Takes>(&mut self.pass) {
            Steal::Success(item) => Some(item),
            Steal::Empty | Steal::Retry => None,
        }
    }
}

/// Looks once into each deque.
pub(crate) fn steal_once(thieves: &mut Vec<Thief>) -> Option<u32>
    ensures taken { OneThiefTakes thieves.old.items result thieves.new.items }
{
    for at in 0..thieves.len() {
        if let Some(item) = thieves[at].steal() {
            return Some(item);
        }
    }
    None
}
