//! The work of a stage.
ghost use Rattle.std.specs.Prelude.{◌≡◌};
ghost use Rattle.ftl_plan.specs.plans.StageParts.{IsStage, view_of};

use crate::plans::parts::StageParts;
use std::marker::Model;

/// The work of a stage of a plan. It borrows what the plan keeps. `run_item` makes each step of an
/// item once; what is asked of a single step goes through the steps before it.
#[derive(Drop)]
pub struct StageWork<'a> {
    pub(crate) parts: StageParts<'a>,
}

impl<'a> Model for StageWork<'a> {
    ghost use Rattle.std.specs.Coded.{codes};
    ghost use Rattle.ftl_model.specs.layout.ForestCode.{forest_code};
    ghost use Rattle.ftl_grammar.specs.contracts.syntax.expression.Expr as e;
    ghost use Rattle.ftl_plan.specs.plans.StageParts.{IsStage, StageView, view_of};

    ghost Value = { StageView };

    ghost coded = { Prim.hlevel (codes, e.the_row.coded, forest_code) };

    ghost view = { λ s. view_of s.parts };

    ghost invariant = { λ s. IsStage s.parts };
}

impl<'a> StageWork<'a> {
    /// The work of the stage that these parts make.
    pub fn new(parts: StageParts<'a>) -> StageWork<'a>
        requires fit { IsStage parts }
        ensures stage { result ≡ view_of parts.entry }
    {
        StageWork { parts }
    }
}
