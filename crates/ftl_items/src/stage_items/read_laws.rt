ghost use Rattle.ftl_items.specs.stage_items.StepLaws.{OfStages};
ghost use Rattle.ftl_items.specs.stage_items.ReadLaws.{VisitsStandByKey, ReadsAreReadable};

/// A law: in a visit steps stand by key, and what a step of a stage reads is an input, of an
/// earlier stage, of an earlier step of its item, or of a step of an item that hands on to it.
pub fn reads()
    ensures by_key { OfStages VisitsStandByKey }
    ensures readable { OfStages ReadsAreReadable }
{}
