//! Which steps visits have.
ghost use Rattle.ftl_cursors.specs.visits.ItemSteps.{BottomupItems, NodesAreThere, OfItems};
ghost use Rattle.ftl_cursors.specs.visits.ItemSteps.{TopdownItems};
ghost use Rattle.ftl_cursors.specs.visits.StepLaws.{NodesOfSubtrees, OfVisits, VisitsAreOfClasses};
ghost use Rattle.ftl_cursors.specs.visits.StepLaws.{StepsAreSteps, TargetsAreTheItems};

/// A law: the visits of a topdown or bottomup pass have rules of their classes, and the steps that
/// they make are steps of the tree, whose instances are those that the items of a stage have.
pub fn visits_make_steps()
    ensures visits { OfVisits VisitsAreOfClasses }
    ensures steps { OfVisits StepsAreSteps }
    ensures targets { OfVisits TargetsAreTheItems }
{}

/// A law: the nodes of the tree at a node stand side by side, from its number on.
pub fn nodes_of_subtrees()
    ensures nodes { NodesOfSubtrees }
{}

/// A law: the nodes of an item are so many from its first on, and what their steps compute are the
/// steps of the item.
pub fn items_by_ranges()
    ensures nodes { OfItems NodesAreThere }
    ensures topdown { OfItems TopdownItems }
    ensures bottomup { OfItems BottomupItems }
{}
