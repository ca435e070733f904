ghost use Rattle.std.specs.Prelude.{◌≡◌};

use crate::shared::hand::SeatView;
use crate::shared::rule::Law;
use crate::shared::work::Meant;
use atomic_table::Table;
use std::alloc::Global;
use std::marker::Model;

/// The words of a work that threads share: the common end's counter, the cells, the states of the
/// items and their counters.
#[derive(Drop)]
pub struct Cells<W: Meant> {
    pub(crate) table: Table<u8, SeatView, W, Law, Global>,
    pub(crate) work: W,
    /// The row that the table was made from, which `close` gives back.
    pub(crate) row: Vec<u64>,
    /// Where the states and the counters of the items begin.
    pub(crate) states: usize,
    pub(crate) counters: usize,
}

impl<W: Meant> Model for Cells<W> {
    ghost use Rattle.std.specs.Prelude.{◌≡◌, ◌≤◌, length};
    ghost use Rattle.ftl_cells.specs.shared.Work.{cell_total};
    ghost use Rattle.atomic_table.specs.Seated.{TableId};
    ghost use Rattle.ftl_cells.specs.shared.Table.{IsTableOf};

    ghost Value = { TableId × W };

    ghost view = { λ c. (c.table.shared.table_id, c.work) };

    ghost invariant = { λ c. (c.table.shared.key ≡ c.work)
        × IsTableOf (W.meaning c.work) c.table.shared.table_id c.states c.counters
        × (cell_total (W.meaning c.work) ≤ length c.row.items) };
}

impl<W: Meant> Cells<W> {
    pub fn work(&self) -> &W
        ensures work { result.now ≡ self.now.1 }
    {
        &self.work
    }
}
