//! Laws on lists that fit, and on the automatic schedule.

ghost use Rattle.ftl_order.specs.automatic.AutomaticLaws.{JoinedListsFit, ListsOfKindsAreOne};
ghost use Rattle.ftl_order.specs.automatic.AutomaticLaws.{ListsOfKindsExist};
ghost use Rattle.ftl_order.specs.automatic.AutomaticLaws.{ChainsAreOne, AutomaticIsOne, LeftIsOne};
ghost use Rattle.ftl_order.specs.automatic.AutomaticLaws.{NotBoth, OneOfBoth, AutomaticIsOrdered};
ghost use Rattle.ftl_order.specs.automatic.AutomaticLaws.{FoundWhereOneIsOrdered};
ghost use Rattle.ftl_order.specs.automatic.AutomaticLaws.{StuckWhereNoneIsOrdered};

/// A law: lists of one kind that fit, joined, fit; and the largest set has one least list.
pub fn lists_that_fit()
    ensures joined { JoinedListsFit }
    ensures one { ListsOfKindsAreOne }
    ensures exists { ListsOfKindsExist }
{}

/// A law: a grammar has one automatic schedule, or is stuck with one set of attributes left.
pub fn exactly_one_automatic_schedule()
    ensures chain { ChainsAreOne }
    ensures schedule { AutomaticIsOne }
    ensures left { LeftIsOne }
    ensures not_both { NotBoth }
    ensures one_of_both { OneOfBoth }
{}

/// A law: the automatic schedule is ordered.
pub fn automatic_schedule_is_ordered()
    ensures ordered { AutomaticIsOrdered }
{}

/// A law: there is an automatic schedule exactly where some schedule is ordered, of any stages and
/// passes. Where none is, some attributes are left.
pub fn found_where_one_exists()
    ensures found { FoundWhereOneIsOrdered }
    ensures stuck { StuckWhereNoneIsOrdered }
{}
