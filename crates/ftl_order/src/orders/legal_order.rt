ghost use Rattle.ftl_order.specs.orders.ReadPairs.{ReadsArePairs};
ghost use Rattle.ftl_order.specs.orders.OrderLaws.{PrecedenceIsTransitive, PrecedenceIsDecided};
ghost use Rattle.ftl_order.specs.orders.OrderLaws.{UnderOrderedSchedules, WritersPrecedeDirectly};
ghost use Rattle.ftl_order.specs.orders.OrderLaws.{WritersPrecede, WritersStandBefore};
ghost use Rattle.ftl_order.specs.orders.OrderLaws.{LegalOrderExists};
ghost use Rattle.ftl_order.specs.orders.OrderLaws.{OneTableSolves, OneListSolves};
ghost use Rattle.ftl_order.specs.orders.OrderLaws.{InorderStepsStandInSequence};
ghost use Rattle.ftl_order.specs.orders.OrderLaws.{StepsBelowStandInSequence};
ghost use Rattle.ftl_order.specs.orders.OrderLaws.{SequencesHaveTheirSteps, RunsEndInTheTable};

/// A law: what a step reads is an input, or the rules of the two are a pair, and they stand on the
/// tree as the pair says. It speaks of no schedule.
pub fn reads_are_pairs()
    ensures pairs { ReadsArePairs }
{}

/// A law: under an ordered schedule what a step reads is an input, or its writer stands near before
/// it and must precede it, on every tree.
pub fn ordered_reads()
    ensures direct { UnderOrderedSchedules WritersPrecedeDirectly }
    ensures precede { UnderOrderedSchedules WritersPrecede }
{}

/// A law: must precede is transitive, and decided.
pub fn steps_that_must_precede()
    ensures transitive { PrecedenceIsTransitive }
    ensures decided { PrecedenceIsDecided }
{}

/// A law: a legal order exists, and in every legal order the writer of each read stands before the
/// reader.
pub fn legal_orders()
    ensures exists { UnderOrderedSchedules LegalOrderExists }
    ensures writers_before { UnderOrderedSchedules WritersStandBefore }
{}

/// A law: exactly one table solves, as a function and as a list.
pub fn exactly_one_table()
    ensures one_table { UnderOrderedSchedules OneTableSolves }
    ensures one_list { UnderOrderedSchedules OneListSolves }
{}

/// A law: computing the steps in any legal order ends in the values that solve.
pub fn runs_end_in_the_table()
    ensures solves { UnderOrderedSchedules RunsEndInTheTable }
{}

/// A law: the sequence of an inorder pass has its steps, each once, in an order in which they may
/// be done; at a node it has those that run there or below.
pub fn inorder_sequences()
    ensures sequence { UnderOrderedSchedules InorderStepsStandInSequence }
    ensures below { UnderOrderedSchedules StepsBelowStandInSequence }
    ensures steps { UnderOrderedSchedules SequencesHaveTheirSteps }
{}
