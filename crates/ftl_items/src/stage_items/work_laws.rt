ghost use Rattle.ftl_items.specs.stage_items.StepLaws.{OfStages};
ghost use Rattle.ftl_items.specs.stage_items.WorkLaws.{StagesAreLawfulWork};

/// A law: a stage of an ordered schedule is lawful work on each tree of a lawful grammar and at
/// each grain, within the limits on counts.
pub fn stages()
    ensures lawful { OfStages StagesAreLawfulWork }
{}
