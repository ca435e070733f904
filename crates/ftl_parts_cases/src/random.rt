// Events that are drawn by a generator with a fixed seed.
ghost use Rattle.std.specs.Prelude.{ℕ, ◌<◌};

use ftl_cells::HandPlace;
use ftl_replay::{Event, ReplayPlace};

/// A linear congruence modulo 2 ^ 64, whose high bits are drawn.
#[derive(Drop)]
pub(crate) struct Random {
    pub(crate) state: u64,
}

impl Random {
    /// A number below the bound.
    fn below(&mut self, bound: u32) -> u32
        requires some { 0 < bound }
        ensures below { result < bound }
    {
        let state = self.state.wrapping_mul(6364136223846793005);
        self.state = state.wrapping_add(1442695040888963407);
        (self.state >> 33) as u32 % bound
    }

    /// An event of a hand that is there, or of the one after the last. Mostly it is of a kind that
    /// the place of the hand allows.
    pub(crate) fn event(&mut self, hands: &[ReplayPlace], items: u32) -> Event
        requires few { items < 1000 }
    {
        let count = hands.len().min(1000) as u32;
        let hand = self.below(count + 1);
        let other = self.below(count + 1);
        let item = self.below(items + 1);
        if self.below(4) == 0 {
            return self.any_event(hand, other, item);
        }
        match hands.get(hand as usize) {
            Some(ReplayPlace::Live(place)) => self.event_at(*place, hand, other, item),
            _ => Event::Left { hand },
        }
    }

    fn any_event(&mut self, hand: u32, other: u32, item: u32) -> Event {
        match self.below(9) {
            0 => Event::Look { hand, item },
            1 => Event::Claim { hand },
            2 => Event::Read { hand },
            3 => Event::Fill { hand },
            4 => Event::Mark { hand },
            5 => Event::Deliver { hand },
            6 => Event::Left { hand },
            7 => Event::Another { hand },
            _ => Event::GiveUp { hand, other },
        }
    }

    fn event_at(&mut self, place: HandPlace, hand: u32, other: u32, item: u32) -> Event {
        match (place, self.below(9)) {
            (HandPlace::Idle, 0) => Event::Left { hand },
            (HandPlace::Idle, 1) => Event::Another { hand },
            (HandPlace::Idle, 2) => Event::GiveUp { hand, other },
            (HandPlace::Idle, _) => Event::Look { hand, item },
            (HandPlace::Looked { .. }, _) => Event::Claim { hand },
            (HandPlace::Working { .. }, 0) => Event::Mark { hand },
            (HandPlace::Working { .. }, 1 | 2 | 3) => Event::Fill { hand },
            (HandPlace::Working { .. }, _) => Event::Read { hand },
            (HandPlace::Filled { .. } | HandPlace::Sending { .. }, _) => Event::Deliver { hand },
            (HandPlace::Ended, _) => Event::GiveUp { hand, other },
        }
    }
}
