//! Laws on the slots of nodes.

ghost use Rattle.ftl_document.specs.fields.SlotLaws.{HoldsInputs, KeepsHeads};

/// A law: the fields of a node are those that are written, and where they have no fault and none is
/// missing, the slots of the inputs hold the inputs of the node's tree.
pub fn slots_hold_inputs()
    ensures heads { KeepsHeads }
    ensures inputs { HoldsInputs }
{}
