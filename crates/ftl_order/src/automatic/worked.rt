//! Laws that hold the automatic schedule against schedules that were typed out by hand.

ghost use Rattle.std.specs.Prelude.{[], ◌∷◌};
ghost use Rattle.ftl_model.specs.layout.Stack.{stack};
ghost use Rattle.ftl_order.specs.worked.Chain.{chain, chain_inorder};
ghost use Rattle.ftl_order.specs.worked.WorkedSchedules.{sizes_then_places};
ghost use Rattle.ftl_order.specs.automatic.Automatic.{IsAutomatic, IsStuck};
ghost use Rattle.ftl_order.specs.automatic.WorkedGrammars.{circle, free, both_topdown};

/// A law: the automatic schedules of three grammars. The stack grammar's is `bottomup { Page.h
/// Box.w Box.h } ; topdown { Box.x Box.y }`. One needs an inorder pass. In the third one a tie goes
/// to `topdown`, and an attribute that no class has stands at its place by number.
pub fn automatic_schedules_of_grammars()
    ensures stack { IsAutomatic stack sizes_then_places }
    ensures inorder { IsAutomatic chain chain_inorder }
    ensures tie { IsAutomatic free both_topdown }
{}

/// A law: a grammar with two attributes that read each other is stuck at both, after a pass for the
/// third one.
pub fn circle_is_stuck()
    ensures stuck { IsStuck circle (0 ∷ 1 ∷ []) }
{}
