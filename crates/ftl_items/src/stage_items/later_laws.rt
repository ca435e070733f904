ghost use Rattle.ftl_items.specs.stage_items.StepLaws.{OfStages};
ghost use Rattle.ftl_items.specs.stage_items.NextLaws.{NextIsLater, PredecessorsAreCounted};

/// A law: an item hands on to later ones alone, and has as many predecessors as there are earlier
/// items that hand on to it.
pub fn next_items()
    ensures later { OfStages NextIsLater }
    ensures counted { OfStages PredecessorsAreCounted }
{}
