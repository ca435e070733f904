ghost use Rattle.ftl_items.specs.stage_items.VisitLaws.{OnTrees, VisitsHaveTheirSteps};
ghost use Rattle.ftl_items.specs.stage_items.VisitLaws.{VisitsHaveStepsOnce};

/// A law: a visit has just the steps of its list's attributes that run at its node, and each once
/// where the list has each computed attribute once.
pub fn visits()
    ensures steps { OnTrees VisitsHaveTheirSteps }
    ensures once { OnTrees VisitsHaveStepsOnce }
{}
