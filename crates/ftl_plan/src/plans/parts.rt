//! What the work of a stage is made of.
ghost use Rattle.std.specs.Prelude.{◌≡◌, ◌<◌};
ghost use Rattle.ftl_cells.specs.shared.Work.{IsStepOfItem, item_total};
ghost use Rattle.ftl_cursors.specs.item_cursor.ItemSteps.{AreStepsOf};
ghost use Rattle.ftl_host_cursors.specs.NestTables.{nest_steps_left};
ghost use Rattle.ftl_plan.specs.plans.StageParts.{IsStage, IsStepAt, grammar_of, meaning_of};
ghost use Rattle.ftl_plan.specs.plans.StageParts.{steps_of};
ghost use Rattle.ftl_plan.specs.plans.StageParts.{tree_of};

use ftl_host_cursors::{NestCursor, NestTables, item_steps, step_at};
use ftl_nest_check::AcceptedNests;
use ftl_order::Step;
use ftl_step_value::limits::ReadTables;
use ftl_step_value::{NeighbourParts, RuleForm};
use ftl_tree::Tree;
use ftl_visit::Programs;

/// What a plan keeps, for one stage.
#[derive(Clone, Copy)]
pub struct StageParts<'a> {
    pub accepted: &'a AcceptedNests<'a>,
    pub programs: &'a Programs,
    pub read_tables: &'a ReadTables,
    pub item_tables: NestTables<'a>,
    pub neighbours: &'a [NeighbourParts],
    pub forms: &'a [RuleForm],
    pub stage: u32,
}

impl<'a> StageParts<'a> {
    /// The tree.
    pub(crate) fn tree(&self) -> &'a Tree<'a>
        ensures tree { result.now ≡ self.now.item_tables.own.items.rows.now.tree.now }
    {
        self.item_tables.own.items.rows.tree
    }

    /// The steps of an item, from the first on.
    #[inline(always)]
    pub(crate) fn cursor(&self, item: u32) -> NestCursor<'a>
        requires fit { IsStage self.now }
        requires item { item < item_total (meaning_of self.now) }
        ensures steps { AreStepsOf (grammar_of self.now) (tree_of self.now)
            (steps_of self.now item) (nest_steps_left result) }
    {
        item_steps(self.item_tables, item)
    }

    /// A step of an item; goes through those before it.
    pub(crate) fn step(&self, item: u32, place: u32) -> Step
        requires fit { IsStage self.now }
        requires step { IsStepOfItem (meaning_of self.now) item place }
        ensures step { IsStepAt self.now item place result }
    {
        step_at(self.cursor(item), place)
    }
}
