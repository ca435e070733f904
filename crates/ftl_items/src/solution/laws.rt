ghost use Rattle.ftl_order.specs.orders.OrderLaws.{UnderOrderedSchedules};
ghost use Rattle.ftl_items.specs.solution.Solution.{SolutionSolves, SolutionSolvesByRank};

/// A law: after as many rounds as there are instances the values solve, under an ordered schedule
/// and wherever a number falls along the reads, and no other values do. A chain of reads has no
/// instance twice, so it is shorter than there are instances.
pub fn solution_solves()
    ensures ordered { UnderOrderedSchedules SolutionSolves }
    ensures by_rank { SolutionSolvesByRank }
{}
