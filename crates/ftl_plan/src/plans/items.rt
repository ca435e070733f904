//! The items and the cells of a stage.
ghost use Rattle.std.specs.Prelude.{◌≡◌, ◌<◌};
ghost use Rattle.ftl_cells.specs.shared.Work.{IsLawfulWork, cell_total, item_total, kind_at};
ghost use Rattle.ftl_cells.specs.shared.Work.{next_at};
ghost use Rattle.ftl_cells.specs.shared.Work.{next_total, pred_total, step_total};
ghost use Rattle.ftl_plan.specs.plans.StageParts.{IsStage, meaning_of};

use crate::cells::cell_kind;
use crate::laws::stages_are_lawful;
use crate::plans::parts::StageParts;
use ftl_cells::CellKind;
use ftl_host_cursors::step_count;

impl<'a> StageParts<'a> {
    pub(crate) fn items(&self) -> u32
        requires fit { IsStage self.now }
        ensures count { result ≡ item_total (meaning_of self.now) }
        ensures lawful { IsLawfulWork (meaning_of self.now) }
    {
        stages_are_lawful();
        self.item_tables.own.items.item_count()
    }

    pub(crate) fn cells(&self) -> u32
        requires fit { IsStage self.now }
        ensures count { result ≡ cell_total (meaning_of self.now) }
    {
        self.tree().instance_count()
    }

    pub(crate) fn kind(&self, cell: u32) -> CellKind
        requires fit { IsStage self.now }
        requires cell { cell < cell_total (meaning_of self.now) }
        ensures kind { result ≡ kind_at (meaning_of self.now) cell }
    {
        cell_kind(
            self.accepted,
            self.read_tables,
            self.tree(),
            self.stage,
            cell,
        )
    }

    pub(crate) fn pred_count(&self, item: u32) -> u32
        requires fit { IsStage self.now }
        requires item { item < item_total (meaning_of self.now) }
        ensures count { result ≡ pred_total (meaning_of self.now) item }
    {
        self.item_tables.own.items.pred_count(item)
    }

    pub(crate) fn next_count(&self, item: u32) -> u32
        requires fit { IsStage self.now }
        requires item { item < item_total (meaning_of self.now) }
        ensures count { result ≡ next_total (meaning_of self.now) item }
    {
        self.item_tables.own.items.next_count(item)
    }

    pub(crate) fn next(&self, item: u32, k: u32) -> u32
        requires fit { IsStage self.now }
        requires item { item < item_total (meaning_of self.now) }
        requires place { k < next_total (meaning_of self.now) item }
        ensures next { result ≡ next_at (meaning_of self.now) item k }
    {
        self.item_tables.own.items.next(item, k)
    }

    pub(crate) fn step_count(&self, item: u32) -> u32
        requires fit { IsStage self.now }
        requires item { item < item_total (meaning_of self.now) }
        ensures count { result ≡ step_total (meaning_of self.now) item }
    {
        let _items = self.items();
        step_count(self.cursor(item))
    }
}
