//! The rule of the table of lots, and the effect of each kind of step.
ghost use Rattle.ftl_lots.specs.table.Lots.{IsKept, TakeTold};

use crate::table::fill_lots::FillLots;
use atomic_table::{Play, TableRule};
use ftl_cells::Phases;
use std::marker::Model;

/// What each seat knows: a work and its phases. No value of it is made.
pub(crate) struct Told {
    phases: Phases,
}

impl Model for Told {
    ghost use Rattle.ftl_lots.specs.table.Lots.{Wanted, wanted};
    ghost use Rattle.ftl_cells.specs.shared.Work.{no_work};

    ghost Value = { Wanted };

    ghost view = { λ t. wanted no_work t.phases };
}

/// Each lot that nobody has is at home: begun where its state is 0, filled where it is 2.
pub(crate) struct Law;

impl<F: FillLots> TableRule<Vec<u64>, Told, F> for Law {
    ghost holds = { λ f s. IsKept (F.wanted f) s.words s.homes };

    ghost first = { λ f. F.wanted f };
}

/// The step that takes a lot.
pub(crate) struct Take;

impl Play<Vec<u64>, Told> for Take {
    ghost then = { λ st m n new. TakeTold m.0 st.word n new };
}

/// The step that gives a lot back.
pub(crate) struct Give;

impl Play<Vec<u64>, Told> for Give {
    ghost then = { λ st m n new. Unit {0} };
}
