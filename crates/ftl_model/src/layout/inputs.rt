ghost use Rattle.ftl_model.specs.layout.InputLaws.{OfSameTrees, HaveSameNodes, HaveSameClasses};
ghost use Rattle.ftl_model.specs.layout.InputLaws.{HaveSameKids, HaveSameSizes, HaveSameNumbers};
ghost use Rattle.ftl_model.specs.layout.InputLaws.{HaveSamePreorder, HaveSameInstances};
ghost use Rattle.ftl_model.specs.layout.InputLaws.{ListSameInstances};
ghost use Rattle.ftl_model.specs.layout.InputLaws.{CountSameInstances, NumberSameInstances};

/// A law: trees that are the same but for their inputs have the same nodes.
pub fn nodes_without_inputs()
    ensures nodes { OfSameTrees HaveSameNodes }
    ensures classes { OfSameTrees HaveSameClasses }
    ensures kids { OfSameTrees HaveSameKids }
    ensures sizes { OfSameTrees HaveSameSizes }
    ensures numbers { OfSameTrees HaveSameNumbers }
    ensures preorder { OfSameTrees HaveSamePreorder }
{}

/// A law: and the same instances, with the same numbers.
pub fn instances_without_inputs()
    ensures instances { OfSameTrees HaveSameInstances }
    ensures list { OfSameTrees ListSameInstances }
    ensures count { OfSameTrees CountSameInstances }
    ensures numbers { OfSameTrees NumberSameInstances }
{}
