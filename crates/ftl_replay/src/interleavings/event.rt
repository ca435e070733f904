ghost use Rattle.std.specs.Prelude.{◌≡◌};
ghost use Rattle.ftl_replay.specs.interleavings.Events.{hand_of};

/// One call on shared cells. Hands are known by number: the first is 0, and each `Another` makes
/// the hand with the next number.
#[derive(Clone, Copy, Debug, PartialEq, Eq)]
pub enum Event {
    Look { hand: u32, item: u32 },
    Claim { hand: u32 },
    Read { hand: u32 },
    /// Stores the step's result over the values that its reads gave.
    Fill { hand: u32 },
    Mark { hand: u32 },
    Deliver { hand: u32 },
    Left { hand: u32 },
    Another { hand: u32 },
    /// The hand takes in the other.
    GiveUp { hand: u32, other: u32 },
}

impl Event {
    /// The hand that makes the step.
    pub fn hand(self) -> u32
        ensures hand { result ≡ hand_of self }
    {
        match self {
            Event::Look { hand, .. }
            | Event::Claim { hand }
            | Event::Read { hand }
            | Event::Fill { hand }
            | Event::Mark { hand }
            | Event::Deliver { hand }
            | Event::Left { hand }
            | Event::Another { hand }
            | Event::GiveUp { hand, .. } => hand,
        }
    }
}
