ghost use Rattle.ftl_order.specs.orders.GrammarLaws.{OfLawful, AttributesAreKnown};
ghost use Rattle.ftl_order.specs.orders.GrammarLaws.{AttributesAreOwned};
ghost use Rattle.ftl_order.specs.orders.GrammarLaws.{OwnersAreOne, ClassesAreDistinct};
ghost use Rattle.ftl_order.specs.orders.GrammarLaws.{TablesAreInRange};

/// A law: each attribute of a lawful grammar is declared by one interface or one class, once.
pub fn attributes_have_owners()
    ensures known { OfLawful AttributesAreKnown }
    ensures owned { OfLawful AttributesAreOwned }
    ensures one { OfLawful OwnersAreOne }
    ensures distinct { OfLawful ClassesAreDistinct }
{}

/// A law: the values of a table that solves are numbers of the grammar's width, or Overflow.
pub fn values_are_in_range()
    ensures in_range { OfLawful TablesAreInRange }
{}
