ghost use Rattle.ftl_items.specs.stage_items.StepLaws.{OfStages, StepsAreOfTheirPass};
ghost use Rattle.ftl_items.specs.stage_items.StepLaws.{EachStepInOneItem};
ghost use Rattle.ftl_items.specs.stage_items.StepLaws.{StepsStandOnce, ItemsStandOnce};

/// A law: each step of a stage is in exactly one of its items, at one place, and the items of a
/// pass have no steps but those of the pass.
pub fn steps()
    ensures of_pass { OfStages StepsAreOfTheirPass }
    ensures one_item { OfStages EachStepInOneItem }
    ensures once { OfStages StepsStandOnce }
    ensures items { OfStages ItemsStandOnce }
{}
