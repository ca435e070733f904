// The calls that make one step each. None waits, and none takes memory.
ghost use Rattle.std.specs.Prelude.{◌≡◌, ◌<◌, None};
ghost use Rattle.ftl_model.specs.layout.Values.{word_of_value};
ghost use Rattle.ftl_cells.specs.shared.Work.{item_total};
ghost use Rattle.ftl_cells.specs.shared.State.{live, IsFree, newcomer, next_name, after};
ghost use Rattle.ftl_cells.specs.shared.State.{after_join};
ghost use Rattle.ftl_cells.specs.shared.State.{split, end_word};
ghost use Rattle.ftl_cells.specs.shared.Calls.{IsMadeBy, CanClaim, CanRead, CanFill, CanMark};
ghost use Rattle.ftl_cells.specs.shared.Calls.{CanDeliver};
ghost use Rattle.ftl_cells.specs.shared.Calls.{IsNextRead, IsNextTarget};
ghost use Rattle.ftl_cells.specs.shared.Calls.{LookSteps, ClaimSteps, ReadAnswers, ReadSteps};
ghost use Rattle.ftl_cells.specs.shared.Calls.{FillSteps};
ghost use Rattle.ftl_cells.specs.shared.Calls.{MarkSteps, DeliverSteps, LeftSteps};
ghost use Rattle.ftl_cells.specs.shared.Interleavings.{IsNextState};
ghost use Rattle.ftl_cells.specs.declared.shared.place.HandPlace.TheVariants.{Idle, Looked};
ghost use Rattle.ftl_cells.specs.declared.shared.place.HandPlace.TheVariants.{Working};

use crate::shared::answer::{Claim, Deliver, Look};
use crate::shared::cells::Cells;
use crate::shared::hand::Hand;
use crate::shared::place::HandPlace;
use crate::shared::work::{Meant, Work};
use ftl_base::{Val, val_of, word_of};

impl<W: Work> Cells<W> {
    /// Loads the item's counter. The hand is Looked where it held 0, else Idle.
    pub fn look(&self, hand: &mut Hand, item: u32) -> Look
        requires made { IsMadeBy (W.meaning self.now.1) self.now.0 hand.old }
        requires idle { hand.old.state.place ≡ live Idle }
        requires item { item < item_total (W.meaning self.now.1) }
        ensures table { hand.new.table ≡ hand.old.table }
        ensures reached { IsNextState hand.old.state hand.new.state }
        ensures step { LookSteps hand.old.state item result hand.new.state }
    {
        match self.load_counter(&mut hand.seat, item) {
            0 => {
                hand.place = HandPlace::Looked { item };
                Look::Ready
            }
            n => Look::NotYet(n),
        }
    }

    /// Claims the item that the hand looked at. The hand is Working where it was free, else Idle.
    pub fn claim(&self, hand: &mut Hand) -> Claim
        requires made { IsMadeBy (W.meaning self.now.1) self.now.0 hand.old }
        requires looked { CanClaim hand.old.state.place }
        ensures table { hand.new.table ≡ hand.old.table }
        ensures reached { IsNextState hand.old.state hand.new.state }
        ensures step { ClaimSteps hand.old.state hand.old.state.place result hand.new.state }
    {
        let HandPlace::Looked { item } = hand.place else {
            unreachable!()
        };
        match self.claim_state(&mut hand.seat, item) {
            0 => {
                hand.place = HandPlace::Working {
                    item,
                    step: 0,
                    reads: 0,
                };
                Claim::Mine
            }
            n => {
                hand.place = HandPlace::Idle;
                Claim::Taken(n)
            }
        }
    }

    /// Loads the cell of the next read, which holds the solution's value.
    pub fn read(&self, hand: &mut Hand) -> Val
        requires made { IsMadeBy (W.meaning self.now.1) self.now.0 hand.old }
        requires working { CanRead (W.meaning self.now.1) hand.old.state.place }
        ensures table { hand.new.table ≡ hand.old.table }
        ensures reached { IsNextState hand.old.state hand.new.state }
        ensures value { ReadAnswers (W.meaning self.now.1) hand.old.state.place result }
        ensures step { ReadSteps hand.old.state hand.old.state.place (word_of_value result)
            hand.new.state }
    {
        let HandPlace::Working { item, step, reads } = hand.place else {
            unreachable!()
        };
        let cell = self.work.read(item, step, reads);
        self.read_at(hand, cell)
    }

    /// Stores the value in the step's target, and goes to the next step.
    pub fn fill(&self, hand: &mut Hand, val: Val)
        requires made { IsMadeBy (W.meaning self.now.1) self.now.0 hand.old }
        requires working { CanFill (W.meaning self.now.1) hand.old.state.place val }
        ensures table { hand.new.table ≡ hand.old.table }
        ensures reached { IsNextState hand.old.state hand.new.state }
        ensures step { FillSteps hand.old.state hand.old.state.place hand.new.state }
    {
        let HandPlace::Working { item, step, .. } = hand.place else {
            unreachable!()
        };
        let cell = self.work.target(item, step);
        self.fill_at(hand, cell, val);
    }

    /// Marks the item as filled.
    pub fn mark(&self, hand: &mut Hand)
        requires made { IsMadeBy (W.meaning self.now.1) self.now.0 hand.old }
        requires working { CanMark (W.meaning self.now.1) hand.old.state.place }
        ensures table { hand.new.table ≡ hand.old.table }
        ensures reached { IsNextState hand.old.state hand.new.state }
        ensures step { MarkSteps hand.old.state hand.old.state.place hand.new.state }
    {
        let HandPlace::Working { item, .. } = hand.place else {
            unreachable!()
        };
        self.mark_state(&mut hand.seat, item);
        hand.place = HandPlace::Filled { item };
    }

    /// Takes one from the counter of the next item in the item's list, and after the last from
    /// that of the common end.
    pub fn deliver(&self, hand: &mut Hand) -> Deliver
        requires made { IsMadeBy (W.meaning self.now.1) self.now.0 hand.old }
        requires filled { CanDeliver hand.old.state.place }
        ensures table { hand.new.table ≡ hand.old.table }
        ensures reached { IsNextState hand.old.state hand.new.state }
        ensures step { DeliverSteps hand.old.state hand.old.state.place result hand.new.state }
    {
        let (item, sent) = match hand.place {
            HandPlace::Filled { item } => (item, 0),
            HandPlace::Sending { item, sent } => (item, sent),
            _ => unreachable!(),
        };
        if sent == self.work.next_count(item) {
            self.finish(&mut hand.seat, item, sent);
            hand.place = HandPlace::Idle;
            return Deliver::Finished;
        }
        let next = self.work.next(item, sent);
        let found = self.send(&mut hand.seat, item, sent, next);
        hand.place = HandPlace::Sending {
            item,
            sent: sent + 1,
        };
        Deliver::Sent {
            next,
            last: found == 1,
        }
    }

    /// Loads the common end's counter. At 0 all items are filled, and the hand is Ended.
    pub fn left(&self, hand: &mut Hand) -> u64
        requires made { IsMadeBy (W.meaning self.now.1) self.now.0 hand.old }
        requires idle { hand.old.state.place ≡ live Idle }
        ensures table { hand.new.table ≡ hand.old.table }
        ensures reached { IsNextState hand.old.state hand.new.state }
        ensures step { LeftSteps hand.old.state result hand.new.state }
    {
        let left = self.load_end(&mut hand.seat);
        if left == 0 {
            hand.place = HandPlace::Ended;
        }
        left
    }

    /// Makes another hand, for another thread.
    pub fn another(&self, hand: &mut Hand) -> Hand
        requires made { IsMadeBy (W.meaning self.now.1) self.now.0 hand.old }
        requires idle { hand.old.state.place ≡ live Idle }
        ensures table { hand.new.table ≡ hand.old.table }
        ensures step { hand.new.state ≡ after hand.old.state (live Idle) split end_word None }
        ensures made { IsMadeBy (W.meaning self.now.1) self.now.0 result }
        ensures new { result.state
            ≡ newcomer (W.meaning self.now.1) (next_name hand.old.state) }
    {
        Hand {
            place: HandPlace::Idle,
            seat: self.split(&mut hand.seat),
        }
    }

    /// Takes in a hand that is not needed any more.
    pub fn give_up(&self, hand: &mut Hand, other: Hand)
        requires made { IsMadeBy (W.meaning self.now.1) self.now.0 hand.old }
        requires other { IsMadeBy (W.meaning self.now.1) self.now.0 other }
        requires free { IsFree hand.old.state.place }
        requires other_free { IsFree other.state.place }
        ensures table { hand.new.table ≡ hand.old.table }
        ensures step { hand.new.state ≡ after_join hand.old.state other.state }
    {
        let Hand { seat, .. } = other;
        self.join(&mut hand.seat, seat);
    }
}

// The steps whose cells the caller tells ask the work nothing.
impl<W: Meant> Cells<W> {
    /// Loads the cell of the next read, which the caller tells.
    pub fn read_at(&self, hand: &mut Hand, cell: u32) -> Val
        requires made { IsMadeBy (W.meaning self.now.1) self.now.0 hand.old }
        requires working { CanRead (W.meaning self.now.1) hand.old.state.place }
        requires cell { IsNextRead (W.meaning self.now.1) hand.old.state.place cell }
        ensures table { hand.new.table ≡ hand.old.table }
        ensures reached { IsNextState hand.old.state hand.new.state }
        ensures value { ReadAnswers (W.meaning self.now.1) hand.old.state.place result }
        ensures step { ReadSteps hand.old.state hand.old.state.place (word_of_value result)
            hand.new.state }
    {
        let HandPlace::Working { item, step, reads } = hand.place else {
            unreachable!()
        };
        let word = self.load_cell(&mut hand.seat, item, step, reads, cell);
        hand.place = HandPlace::Working {
            item,
            step,
            reads: reads + 1,
        };
        val_of(word).unwrap()
    }

    /// Stores the value in the step's target, which the caller tells.
    pub fn fill_at(&self, hand: &mut Hand, cell: u32, val: Val)
        requires made { IsMadeBy (W.meaning self.now.1) self.now.0 hand.old }
        requires working { CanFill (W.meaning self.now.1) hand.old.state.place val }
        requires cell { IsNextTarget (W.meaning self.now.1) hand.old.state.place cell }
        ensures table { hand.new.table ≡ hand.old.table }
        ensures reached { IsNextState hand.old.state hand.new.state }
        ensures step { FillSteps hand.old.state hand.old.state.place hand.new.state }
    {
        let HandPlace::Working { item, step, .. } = hand.place else {
            unreachable!()
        };
        self.store_cell(&mut hand.seat, item, step, cell, word_of(val));
        hand.place = HandPlace::Working {
            item,
            step: step + 1,
            reads: 0,
        };
    }
}
