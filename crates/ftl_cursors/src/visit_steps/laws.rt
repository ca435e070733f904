//! What visits run.

ghost use Rattle.ftl_cursors.specs.visit_steps.VisitLaws.{OfClasses, TopdownRunsByKey};
ghost use Rattle.ftl_cursors.specs.visit_steps.VisitLaws.{BottomupRunsByKey};
ghost use Rattle.ftl_cursors.specs.visit_steps.VisitLaws.{RunsRulesAlone};

/// A law: the operations of a topdown or bottomup visit of a class are rules of the grammar, and
/// run those rules of the class, by key, that the items of a stage have.
pub fn visits_run_rules()
    ensures topdown { OfClasses TopdownRunsByKey }
    ensures bottomup { OfClasses BottomupRunsByKey }
    ensures alone { OfClasses RunsRulesAlone }
{}
