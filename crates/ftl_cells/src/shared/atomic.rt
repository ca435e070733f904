// Each kind of step, as one atomic instruction on a seat.
ghost use Rattle.std.specs.Prelude.{◌≡◌, ℕ, ◌<◌, ◌^◌, []};
ghost use Rattle.ftl_model.specs.layout.Values.{word_of_value};
ghost use Rattle.ftl_cells.specs.shared.Work.{IsStepOfItem, item_total, next_total, next_at};
ghost use Rattle.ftl_cells.specs.shared.Work.{step_total};
ghost use Rattle.ftl_cells.specs.shared.Work.{target_of, read_total, read_of, solved_word};
ghost use Rattle.ftl_cells.specs.shared.State.{live, Sends, IsFree, newcomer, next_name, after};
ghost use Rattle.ftl_cells.specs.shared.State.{after_join, split, end_word};
ghost use Rattle.ftl_cells.specs.shared.Table.{IsSeatOf};
ghost use Rattle.ftl_cells.specs.shared.Effects.{LookEffect, ClaimEffect, ReadEffect, FillEffect};
ghost use Rattle.ftl_cells.specs.shared.Effects.{MarkEffect};
ghost use Rattle.ftl_cells.specs.shared.Effects.{SendEffect};
ghost use Rattle.ftl_cells.specs.shared.Effects.{FinishEffect, LeftEffect};
ghost use Rattle.ftl_cells.specs.shared.Interleavings.{IsNextState};
ghost use Rattle.ftl_cells.specs.declared.shared.place.HandPlace.TheVariants.{Idle, Looked};
ghost use Rattle.ftl_cells.specs.declared.shared.place.HandPlace.TheVariants.{Working};
ghost use Rattle.std.specs.Prelude.{None};

use crate::shared::cells::Cells;
use crate::shared::hand::SeatView;
use crate::shared::rule::{
    ClaimPlay, FillPlay, FinishPlay, JoinPlay, LeftPlay, LookPlay, MarkPlay, ReadPlay, SendPlay,
    SplitPlay,
};
use crate::shared::work::Meant;
use atomic_table::Seat;

impl<W: Meant> Cells<W> {
    pub(crate) fn load_counter(&self, seat: &mut Seat<u8, SeatView>, item: u32) -> u64
        requires seat { IsSeatOf (W.meaning self.now.1) self.now.0 seat.old }
        requires idle { seat.old.me.0.place ≡ live Idle }
        requires item { item < item_total (W.meaning self.now.1) }
        ensures table { seat.new.table_id ≡ seat.old.table_id }
        ensures reached { IsNextState seat.old.me.0 seat.new.me.0 }
        ensures effect { LookEffect seat.old.me item result seat.new.me }
    {
        self.table
            .shared
            .load::<LookPlay>(seat, self.counters + item as usize)
    }

    pub(crate) fn claim_state(&self, seat: &mut Seat<u8, SeatView>, item: u32) -> u64
        requires seat { IsSeatOf (W.meaning self.now.1) self.now.0 seat.old }
        requires looked { seat.old.me.0.place ≡ live (Looked item) }
        requires item { item < item_total (W.meaning self.now.1) }
        ensures table { seat.new.table_id ≡ seat.old.table_id }
        ensures reached { IsNextState seat.old.me.0 seat.new.me.0 }
        ensures effect { ClaimEffect seat.old.me item result seat.new.me }
    {
        let shared = &self.table.shared;
        let at = self.states + item as usize;
        shared.compare_exchange::<ClaimPlay>(seat, at, 0, 1)
    }

    /// Loads the cell of a read. Where the hand stands is for the contract alone.
    pub(crate) fn load_cell(
        &self,
        seat: &mut Seat<u8, SeatView>,
        _item: u32,
        _step: u32,
        _k: u32,
        cell: u32,
    ) -> u64
        requires seat { IsSeatOf (W.meaning self.now.1) self.now.0 seat.old }
        requires working { seat.old.me.0.place ≡ live (Working _item _step _k) }
        requires step { IsStepOfItem (W.meaning self.now.1) _item _step }
        requires place { _k < read_total (W.meaning self.now.1) _item _step }
        requires cell { cell ≡ read_of (W.meaning self.now.1) _item _step _k }
        ensures table { seat.new.table_id ≡ seat.old.table_id }
        ensures reached { IsNextState seat.old.me.0 seat.new.me.0 }
        ensures effect { ReadEffect seat.old.me _item _step _k result seat.new.me }
        ensures counted { read_total (W.meaning self.now.1) _item _step < 2 ^ 32 }
    {
        self.table.shared.load::<ReadPlay>(seat, 1 + cell as usize)
    }

    /// Stores the word in the target of a step. Where the hand stands is for the contract alone.
    pub(crate) fn store_cell(
        &self,
        seat: &mut Seat<u8, SeatView>,
        _item: u32,
        _step: u32,
        cell: u32,
        word: u64,
    )
        requires seat { IsSeatOf (W.meaning self.now.1) self.now.0 seat.old }
        requires working { seat.old.me.0.place
            ≡ live (Working _item _step (read_total (W.meaning self.now.1) _item _step)) }
        requires step { IsStepOfItem (W.meaning self.now.1) _item _step }
        requires cell { cell ≡ target_of (W.meaning self.now.1) _item _step }
        requires word { word
            ≡ solved_word (W.meaning self.now.1) (target_of (W.meaning self.now.1) _item _step) }
        ensures table { seat.new.table_id ≡ seat.old.table_id }
        ensures reached { IsNextState seat.old.me.0 seat.new.me.0 }
        ensures effect { FillEffect seat.old.me _item _step seat.new.me }
        ensures counted { step_total (W.meaning self.now.1) _item < 2 ^ 32 }
    {
        self.table
            .shared
            .store::<FillPlay>(seat, 1 + cell as usize, word);
    }

    pub(crate) fn mark_state(&self, seat: &mut Seat<u8, SeatView>, item: u32)
        requires seat { IsSeatOf (W.meaning self.now.1) self.now.0 seat.old }
        requires working { seat.old.me.0.place
            ≡ live (Working item (step_total (W.meaning self.now.1) item) 0) }
        requires item { item < item_total (W.meaning self.now.1) }
        ensures table { seat.new.table_id ≡ seat.old.table_id }
        ensures reached { IsNextState seat.old.me.0 seat.new.me.0 }
        ensures effect { MarkEffect seat.old.me item seat.new.me }
    {
        self.table
            .shared
            .store::<MarkPlay>(seat, self.states + item as usize, 2);
    }

    /// Takes one from the counter of the next item at this place, and says how many are left.
    pub(crate) fn send(&self, seat: &mut Seat<u8, SeatView>, item: u32, sent: u32, next: u32) -> u64
        requires seat { IsSeatOf (W.meaning self.now.1) self.now.0 seat.old }
        requires item { item < item_total (W.meaning self.now.1) }
        requires sending { Sends seat.old.me.0.place item sent }
        requires place { sent < next_total (W.meaning self.now.1) item }
        requires next { next ≡ next_at (W.meaning self.now.1) item sent }
        ensures table { seat.new.table_id ≡ seat.old.table_id }
        ensures reached { IsNextState seat.old.me.0 seat.new.me.0 }
        ensures effect { SendEffect seat.old.me item sent result seat.new.me }
    {
        self.table
            .shared
            .fetch_sub::<SendPlay>(seat, self.counters + next as usize, 1)
    }

    pub(crate) fn finish(&self, seat: &mut Seat<u8, SeatView>, item: u32, sent: u32)
        requires seat { IsSeatOf (W.meaning self.now.1) self.now.0 seat.old }
        requires sending { Sends seat.old.me.0.place item sent }
        requires done { sent ≡ next_total (W.meaning self.now.1) item }
        ensures table { seat.new.table_id ≡ seat.old.table_id }
        ensures reached { IsNextState seat.old.me.0 seat.new.me.0 }
        ensures effect { (n : ℕ) × FinishEffect seat.old.me n seat.new.me }
    {
        self.table.shared.fetch_sub::<FinishPlay>(seat, 0, 1);
    }

    pub(crate) fn load_end(&self, seat: &mut Seat<u8, SeatView>) -> u64
        requires seat { IsSeatOf (W.meaning self.now.1) self.now.0 seat.old }
        requires idle { seat.old.me.0.place ≡ live Idle }
        ensures table { seat.new.table_id ≡ seat.old.table_id }
        ensures reached { IsNextState seat.old.me.0 seat.new.me.0 }
        ensures effect { LeftEffect seat.old.me result seat.new.me }
    {
        self.table.shared.load::<LeftPlay>(seat, 0)
    }

    pub(crate) fn split(&self, seat: &mut Seat<u8, SeatView>) -> Seat<u8, SeatView>
        requires seat { IsSeatOf (W.meaning self.now.1) self.now.0 seat.old }
        requires idle { seat.old.me.0.place ≡ live Idle }
        ensures table { seat.new.table_id ≡ seat.old.table_id }
        ensures kept { seat.new.me
            ≡ (after seat.old.me.0 seat.old.me.0.place split end_word None, seat.old.me.1) }
        ensures made { result.table_id ≡ seat.old.table_id }
        ensures newcomer { result.me ≡ (newcomer seat.old.me.0.of (next_name seat.old.me.0), []) }
    {
        self.table.shared.split_seat::<SplitPlay>(seat)
    }

    pub(crate) fn join(&self, seat: &mut Seat<u8, SeatView>, other: Seat<u8, SeatView>)
        requires seat { IsSeatOf (W.meaning self.now.1) self.now.0 seat.old }
        requires other { other.table_id ≡ self.now.0 }
        requires empty { other.me.1 ≡ [] }
        requires free { IsFree seat.old.me.0.place }
        requires other_free { IsFree other.me.0.place }
        ensures table { seat.new.table_id ≡ seat.old.table_id }
        ensures kept { seat.new.me
            ≡ (after_join seat.old.me.0 other.me.0, seat.old.me.1) }
    {
        self.table.shared.join_seat::<JoinPlay>(seat, other);
    }
}
