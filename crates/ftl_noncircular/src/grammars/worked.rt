//! Laws that hold the definition of noncircular against small grammars.

ghost use Rattle.ftl_model.specs.layout.Stack.{stack};
ghost use Rattle.ftl_model.specs.layout.Tree.{Forest};
ghost use Rattle.ftl_model.specs.layout.TreeOf.{IsTreeOf};
ghost use Rattle.ftl_order.specs.orders.Lawful.{IsLawful};
ghost use Rattle.ftl_order.specs.orders.OneTable.{ExactlyOneTable};
ghost use Rattle.ftl_order.specs.orders.Ordered.{IsOrdered};
ghost use Rattle.ftl_order.specs.orders.Schedule.{Schedule};
ghost use Rattle.ftl_noncircular.specs.grammars.FirstCircular.{IsFirstCircular};
ghost use Rattle.ftl_noncircular.specs.grammars.Noncircular.{IsNoncircular, of_child, of_self};
ghost use Rattle.ftl_noncircular.specs.grammars.Worked.{IsCircularAt, framed};
ghost use Rattle.ftl_noncircular.specs.grammars.Worked.{twisted, by_prev, back, by_itself};
ghost use Rattle.ftl_noncircular.specs.grammars.Worked.{by_this, by_fold, by_kid, by_listed_kid};
ghost use Rattle.ftl_noncircular.specs.grammars.Worked.{by_prev_and_self, by_prev_and_single};
ghost use Rattle.ftl_noncircular.specs.grammars.Worked.{by_prev_in_kid, by_several};
ghost use Rattle.ftl_noncircular.specs.grammars.Worked.{by_several_and_self};

/// A law: noncircular grammars. In `by_prev` a walk comes back among the kids of a list, on later
/// kids. In `back` what a kid gives comes back to it, but depends on nothing that it is given.
pub fn noncircular_grammars()
    ensures stack { IsNoncircular stack }
    ensures twisted { IsLawful (framed twisted) × IsNoncircular (framed twisted) }
    ensures by_prev { IsLawful (framed by_prev) × IsNoncircular (framed by_prev) }
    ensures back { IsLawful (framed back) × IsNoncircular (framed back) }
{}

/// A law: no schedule is ordered for the twisted grammar, and exactly one table solves each of its
/// trees.
pub fn one_table_without_a_schedule()
    ensures unordered { (s : Schedule) → IsOrdered (framed twisted) s → ⊥ }
    ensures one_table { (t : Forest) → IsTreeOf (framed twisted) t
        → ExactlyOneTable (framed twisted) t }
{}

/// A law: circular grammars, each by a walk of another kind. The last three are circular by reads
/// by `prev` alone: of the class itself, or, in the last one, of the kid that it goes through.
pub fn circular_grammars()
    ensures by_itself { IsCircularAt (framed by_itself) 0 (of_self 5) }
    ensures by_this { IsCircularAt (framed by_this) 0 (of_child 0 0) }
    ensures by_fold { IsCircularAt (framed by_fold) 0 (of_self 5) }
    ensures by_kid { IsCircularAt (framed by_kid) 0 (of_child 1 3) }
    ensures by_listed_kid { IsCircularAt (framed by_listed_kid) 0 (of_child 0 0) }
    ensures by_prev_and_self { IsCircularAt (framed by_prev_and_self) 0 (of_self 5) }
    ensures by_prev_and_single { IsCircularAt (framed by_prev_and_single) 0 (of_child 1 3) }
    ensures by_prev_in_kid { IsCircularAt (framed by_prev_in_kid) 0 (of_child 1 3) }
{}

/// A law: the first circular vertices of three grammars. The first two have circular vertices of
/// each child of a class, and of a later class; the third one has those of one child alone.
pub fn first_circular_vertices()
    ensures lawful { IsLawful (framed by_several_and_self) × IsLawful (framed by_several) }
    ensures own { IsFirstCircular (framed by_several_and_self) 0 (of_self 5) }
    ensures of_a_list { IsFirstCircular (framed by_several) 0 (of_child 0 0) }
    ensures of_a_child { IsFirstCircular (framed by_kid) 0 (of_child 1 3) }
{}
