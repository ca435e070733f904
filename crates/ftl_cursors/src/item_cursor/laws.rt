//! Which items have no steps.
ghost use Rattle.ftl_cursors.specs.item_cursor.VisitedItems.{ItemsWithoutSteps};

/// A law: an item of a topdown or bottomup pass has no steps where the classes of its block of items
/// have no operations in any pass of the stage.
pub fn items_without_steps()
    ensures none { ItemsWithoutSteps }
{}
