//! Lots in the slots of a table, with a state each.
ghost use Rattle.std.specs.Prelude.{◌≡◌, ℕ, ◌<◌, ◌≤◌, length, vec_capacity, vec_len, IfOk};
ghost use Rattle.ftl_lots.specs.table.Lots.{AreBegunFrom, Has, IsFilled, TakeTold, lot_total};

use crate::table::fill_lots::FillLots;
use crate::table::rule::{Give, Law, Take, Told};
use atomic_table::{Refused, Seat, Table};
use ftl_base::{CodeStack, Val};
use std::alloc::{AllocError, Global};
use std::marker::Model;
use std::sync::Wait;
use std::thread;

/// The state of a lot that nobody took yet.
const FREE: u64 = 0;
/// That of a lot that somebody has.
const OUT: u64 = 1;
/// That of a lot that is filled.
const FILLED: u64 = 2;

/// The lots of a work, in the slots of a table.
#[derive(Drop)]
pub(crate) struct Lots<F: FillLots> {
    table: Table<Vec<u64>, Told, F, Law, Global>,
}

impl<F: FillLots> Model for Lots<F> {
    ghost use Rattle.std.specs.Prelude.{◌≡◌};
    ghost use Rattle.atomic_table.specs.Seated.{TableId};
    ghost use Rattle.ftl_lots.specs.table.Lots.{Wanted, lot_total};

    ghost Value = { TableId × Wanted };

    ghost view = { λ l. (l.table.shared.table_id, F.wanted l.table.shared.key) };

    ghost invariant = { λ l. (l.table.shared.table_id.words
        ≡ lot_total (F.wanted l.table.shared.key))
        × (l.table.shared.table_id.slots ≡ lot_total (F.wanted l.table.shared.key)) };
}

impl<F: FillLots> Lots<F> {
    /// Lots that nobody took yet, one for each part.
    pub(crate) fn new(
        alloc: Global,
        filler: &F,
        parts: Vec<Vec<u64>>,
    ) -> Result<Lots<F>, AllocError>
        requires count { vec_len parts ≡ lot_total (F.wanted filler.now) }
        requires begun { AreBegunFrom (F.wanted filler.now) 0 parts.items }
        ensures of { IfOk result (λ l. l.1 ≡ F.wanted filler.now) }
    {
        let states = Vec::from_elem(alloc, FREE, parts.len())?;
        match Table::new(alloc, states.as_slice(), parts, filler) {
            Ok((table, _)) => Ok(Lots { table }),
            Err(Refused { slots: _ }) => Err(AllocError),
        }
    }

    /// Takes a lot, if nobody has it; tells in which state it was.
    fn take(&self, lot: u32) -> (u64, Seat<Vec<u64>, Told>)
        requires lot { lot < lot_total self.now.1 }
        ensures table { result.1.table_id ≡ self.now.0 }
        ensures told { TakeTold self.now.1 lot result.0 result.1.me }
    {
        self.table.shared.swap_new_seat::<Take>(lot as usize, OUT)
    }

    /// Gives a lot back that is filled.
    fn give(&self, mut seat: Seat<Vec<u64>, Told>, lot: u32)
        requires lot { lot < lot_total self.now.1 }
        requires table { seat.table_id ≡ self.now.0 }
        requires filled { Has lot (IsFilled self.now.1 lot) seat.me }
    {
        self.table
            .shared
            .store::<Give>(&mut seat, lot as usize, FILLED);
    }

    /// Fills a lot that nobody took yet, and gives it back.
    pub(crate) fn fill(&self, filler: &F, lot: u32, reads: &mut Vec<Val>, stack: &mut CodeStack)
        requires of { F.wanted filler.now ≡ self.now.1 }
        requires lot { lot < lot_total self.now.1 }
        requires reads { self.now.1.of.max_reads ≤ vec_capacity reads.old }
        requires room { self.now.1.of.max_stack ≤ stack.old.room }
        ensures reads { vec_capacity reads.old ≤ vec_capacity reads.new }
        ensures room { stack.new.room ≡ stack.old.room }
    {
        let (found, mut seat) = self.take(lot);
        if found == FREE {
            let part = seat.slot_mut(&self.table.shared, lot as usize);
            filler.fill_part(lot, part, reads, stack);
            self.give(seat, lot);
        } else if found == FILLED {
            self.give(seat, lot);
        }
    }

    /// The part of a lot that is filled, after it waited for that.
    pub(crate) fn filled<R: Wait>(&self, rt: &R, alloc: Global, lot: u32) -> Vec<u64>
        requires lot { lot < lot_total self.now.1 }
        ensures filled { IsFilled self.now.1 lot result }
    {
        for _ in rt.forever() {
            if self.table.shared.peek(lot as usize) == FILLED {
                let (found, mut seat) = self.take(lot);
                if found == FILLED {
                    return self
                        .table
                        .shared
                        .exchange(&mut seat, lot as usize, Vec::new(alloc));
                }
            }
            thread::yield_now();
        }
        unreachable!()
    }
}
