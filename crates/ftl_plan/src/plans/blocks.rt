//! Which items of a stage may be passed over.
ghost use Rattle.std.specs.Prelude.{◌≡◌, ◌<◌, length, true, Some};
ghost use Rattle.ftl_lots.specs.filling.Blocks.{AreIdle};
ghost use Rattle.ftl_plan.specs.declared.plans.phases.ItemPhases.{ItemPhases};
ghost use Rattle.ftl_plan.specs.plans.KindPhases.{AreForStage};
ghost use Rattle.ftl_plan.specs.plans.StageParts.{meaning_at};
ghost use Rattle.ftl_plan.specs.plans.VisitsAlone.{AreVisitsAlone, IsVisitsAlone};

use crate::plans::parts::StageParts;
use crate::plans::phases::ItemPhases;
use crate::plans::work::StageWork;
use ftl_cursors::item_cursor::{items_without_steps, visited_in};
use ftl_host_cursors::NestTables;
use ftl_lots::ItemBlocks;
use ftl_schedule::PassKind;

impl<'a> StageWork<'a> {
    /// The blocks of the stage's items: where all its passes are topdown or bottomup and nest
    /// nothing, those whose nodes have none of the classes that the passes have operations for can
    /// be passed over; else none.
    pub fn blocks<'k>(&self, lots: &'k Option<ItemPhases>) -> ItemBlocks<'k>
        requires lots { (l : ItemPhases) → lots.now ≡ Some l → AreForStage self.now l }
        ensures idle { AreIdle (meaning_at self.now) result }
    {
        items_without_steps();
        let tables = self.parts.item_tables.own;
        let _items = tables.items.item_count();
        if let Some(lots) = lots {
            if self.parts.have_visits_alone() {
                return ItemBlocks {
                    sets: lots.classes.as_slice(),
                    wanted: visited_in(tables),
                };
            }
        }
        ItemBlocks {
            sets: &[],
            wanted: 0,
        }
    }
}

impl<'a> StageParts<'a> {
    /// Whether all passes of the stage are topdown or bottomup and nest nothing.
    fn have_visits_alone(&self) -> bool
        ensures alone { result ≡ true → AreVisitsAlone self.now.item_tables }
    {
        let tables = self.item_tables;
        let count = tables.own.items.passes.len();
        if tables.nests.len() != count {
            return false;
        }
        for pass in 0..count {
            if !has_visits_alone(tables, pass) {
                return false;
            }
        }
        true
    }
}

/// Whether the pass of a number is topdown or bottomup and nests nothing.
fn has_visits_alone(tables: NestTables<'_>, pass: usize) -> bool
    requires known { pass < length tables.own.items.passes.now }
    requires nest { pass < length tables.nests.now }
    ensures alone { result ≡ true → IsVisitsAlone tables.entry pass }
{
    match tables.own.items.passes[pass].kind {
        PassKind::InOrder => false,
        _ => tables.nests[pass].is_none(),
    }
}
