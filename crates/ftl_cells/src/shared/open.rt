// The first and the last call on the cells of a work, which take memory.
ghost use Rattle.std.specs.Prelude.{◌≡◌, ℕ, ◌+◌, ◌<◌, slice_index, vec_len, IfOk};
ghost use Rattle.std.specs.Slots.{slots_items, slots_len, IsFull};
ghost use Rattle.ftl_cells.specs.shared.State.{live, newcomer, first_name, AreFirst, AreLast};
ghost use Rattle.ftl_cells.specs.shared.Calls.{IsMadeBy};
ghost use Rattle.ftl_cells.specs.declared.shared.place.HandPlace.TheVariants.{Ended};

use crate::shared::cells::Cells;
use crate::shared::hand::Hand;
use crate::shared::place::HandPlace;
use crate::shared::row::open_row;
use crate::shared::work::Work;
use atomic_table::{Closed, Table};
use std::alloc::{AllocError, Global};

impl<W: Work + Drop> Cells<W> {
    /// Opens the cells of a work, from the words of its Given cells and 0 for all others.
    pub fn open(alloc: Global, work: W, mut words: Vec<u64>) -> Result<(Cells<W>, Hand), AllocError>
        requires first { AreFirst (W.meaning work) words.items }
        ensures work { IfOk result (λ r. r.0.1 ≡ work) }
        ensures made { IfOk result (λ r. IsMadeBy (W.meaning work) r.0.0 r.1) }
        ensures new { IfOk result (λ r. r.1.state ≡ newcomer (W.meaning work) first_name) }
    {
        open_row(&work, &mut words)?;
        let (table, seat) = Table::of_words(alloc, words.as_slice(), &work)?;
        let states = 1 + work.cells() as usize;
        let counters = states + work.items() as usize;
        let cells = Cells {
            table,
            work,
            row: words,
            states,
            counters,
        };
        let hand = Hand {
            place: HandPlace::Idle,
            seat,
        };
        Ok((cells, hand))
    }

    /// Gives the words of the cells. There is an Ended hand, so all items are filled.
    pub fn close(self, hand: Hand) -> Vec<u64>
        requires made { IsMadeBy (W.meaning self.1) self.0 hand }
        requires ended { hand.state.place ≡ live Ended }
        ensures words { AreLast (W.meaning self.1) result.items }
    {
        let Cells {
            table,
            work,
            row: mut words,
            ..
        } = self;
        let Hand { seat, .. } = hand;
        words.truncate(work.cells() as usize);
        let closed = table.close_with(seat);
        copy_cells(&closed, &mut words);
        closed.free();
        words
    }
}

/// Copies the words of the cells, one for each word that there is.
fn copy_cells(closed: &Closed<u8, Global>, words: &mut Vec<u64>)
    requires full { IsFull closed.now.words }
    requires cells { vec_len words.old < slots_len closed.now.words }
    ensures count { vec_len words.new ≡ vec_len words.old }
    ensures each { (c : ℕ) → c < vec_len words.new
        → slice_index words.new.items c ≡ slice_index (slots_items closed.now.words) (1 + c) }
{
    for (cell, word) in words.iter_mut().enumerate() {
        *word = closed.word(1 + cell);
    }
}
