ghost use Rattle.ftl_items.specs.stage_items.FormLaws.{FormsAreLawfulWork};

/// A law: a stage whose passes have lawful forms is lawful work, within the limits on counts. A
/// form tells which trees are one item, the steps of each visit, and those of an inorder pass.
pub fn forms()
    ensures lawful { FormsAreLawfulWork }
{}
