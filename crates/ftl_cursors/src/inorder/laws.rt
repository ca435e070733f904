//! Sequences by kids, and by operations.
ghost use Rattle.ftl_cursors.specs.inorder.InorderSteps.{StepsAreOfTheTree};
ghost use Rattle.ftl_cursors.specs.inorder.InorderSteps.{StepsComputeTheSequence};
ghost use Rattle.ftl_cursors.specs.inorder.InorderSteps.{StepsGoKidByKid};
ghost use Rattle.ftl_cursors.specs.inorder.InorderVisits.{VisitsAreTheSequence};
ghost use Rattle.ftl_cursors.specs.inorder.KidSequences.{GoesKidByKid, OfNodes};

/// A law: the sequence at a node has the locals, then child by child what is done for each kid, and
/// then the synthesized attributes.
pub fn sequences_by_kids()
    ensures kids { OfNodes GoesKidByKid }
{}

/// A law: in an ordered schedule the sequence at a node is what the operations of its visit do.
pub fn visits_make_sequences()
    ensures sequence { VisitsAreTheSequence }
{}

/// A law: the steps of an inorder pass are steps of the tree, and in an ordered schedule they
/// compute its sequence.
pub fn inorder_steps_make_sequences()
    ensures tree { StepsAreOfTheTree }
    ensures steps { StepsComputeTheSequence }
{}

/// A law: the steps at a node are its own, with those of its kids between them.
pub fn inorder_steps_by_kids()
    ensures kids { StepsGoKidByKid }
{}
