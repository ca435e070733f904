ghost use Rattle.ftl_items.specs.stage_items.CutLaws.{TopdownHandsOn, BottomupHandsOn};

/// A law: in a topdown pass an item of one node in no small tree hands on to the items that hold
/// its kids, and another to none; in a bottomup pass an item hands on to the one that holds its
/// first node's parent.
pub fn handings()
    ensures topdown { TopdownHandsOn }
    ensures bottomup { BottomupHandsOn }
{}
