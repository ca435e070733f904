ghost use Rattle.std.specs.Prelude.{◌≡◌};
ghost use Rattle.ftl_cells.specs.shared.State.{live};
ghost use Rattle.ftl_cells.specs.shared.Kept.{IsInRange};

use crate::shared::place::HandPlace;
use atomic_table::Seat;
use std::marker::Model;

/// What contracts say of a hand: its place, its last step, how many steps it made, and what it
/// released. It has no bytes.
pub(crate) struct SeatView {}

impl Model for SeatView {
    ghost use Rattle.ftl_cells.specs.shared.State.{HandState, newcomer, first_name};
    ghost use Rattle.ftl_cells.specs.shared.Work.{no_work};

    ghost Value = { HandState };

    ghost view = { λ _. newcomer no_work first_name };
}

/// Makes the steps of one thread. `Cells::open` gives the first hand, and `another` gives more.
#[derive(Drop)]
pub struct Hand {
    pub(crate) place: HandPlace,
    pub(crate) seat: Seat<u8, SeatView>,
}

impl Model for Hand {
    ghost use Rattle.ftl_cells.specs.shared.Calls.{HandModel};

    ghost Value = { HandModel };

    ghost use Rattle.ftl_cells.specs.shared.Table.{IsSeatedAt};

    ghost view = { λ h. record { table = h.seat.table_id; state = h.seat.me.0 } };

    ghost invariant = { λ h. IsSeatedAt h.place h.seat };
}

impl Hand {
    pub fn place(&self) -> HandPlace
        ensures place { self.now.state.place ≡ live result }
        ensures in_range { IsInRange self.now.state.of (live result) }
    {
        self.place
    }
}
