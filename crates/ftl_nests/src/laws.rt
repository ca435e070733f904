ghost use Rattle.ftl_nests.specs.NestLaws.{LegalOrderExistsWithNests, WritersStandBefore};
ghost use Rattle.ftl_nests.specs.NestLaws.{FlatOrdersAreLegal, OneTableSolvesWithNests};
ghost use Rattle.ftl_nests.specs.NestLaws.{RunsWithNestsSolve, FlatIsOrdered, PlainIsOrdered};
ghost use Rattle.ftl_nests.specs.NestLaws.{NestsAddNothing, PlainStepsPrecede};
ghost use Rattle.ftl_nests.specs.NestLaws.{RegionIsSet, RegionIsLeast, OfClosed};
ghost use Rattle.ftl_nests.specs.NestLaws.{RegionNodesAreBelowHosts, HostsAreOne, UnderNests};
ghost use Rattle.ftl_nests.specs.NestLaws.{HostedStepsHaveOneHost, WritersPrecedeDirectly};
ghost use Rattle.ftl_nests.specs.NestLaws.{WritersMustPrecede, HostsAreFree};
ghost use Rattle.ftl_nests.specs.NestLaws.{OwnStepsAreBound, OwnStepsRunBelowNoHost};
ghost use Rattle.ftl_nests.specs.NestLaws.{InnerStepsStandInSequence};
ghost use Rattle.ftl_nests.specs.WorkLaws.{OfNestStages, NestStagesAreLawfulWork};
ghost use Rattle.ftl_nests.specs.WorkLaws.{ItemsAreOfThreeSorts, WholeTreesHandOnToNone};
ghost use Rattle.ftl_nests.specs.WorkLaws.{NestWordsFitTheNextStage};
ghost use Rattle.ftl_nests.specs.WorkLaws.{PlainStagesAreWorkAsBefore};

/// A law: a stage of an ordered schedule with nests is lawful work on each tree of a lawful
/// grammar and at each grain, within the limits on counts.
pub fn nest_stages()
    ensures lawful { OfNestStages NestStagesAreLawfulWork }
    ensures next { OfNestStages NestWordsFitTheNextStage }
{}

/// A law: an item is a small tree, the tree of a host, or the visit of one node; in a topdown
/// pass one of the first two sorts hands on to none.
pub fn nest_cuts()
    ensures sorts { OfNestStages ItemsAreOfThreeSorts }
    ensures handing { OfNestStages WholeTreesHandOnToNone }
{}

/// A law: the region of a host class is the least such set of interfaces.
pub fn regions()
    ensures is_set { RegionIsSet }
    ensures is_least { RegionIsLeast }
{}

/// A law: the nodes of a closed nest's region are those below a node of the host class, and no
/// node is below two.
pub fn closed_nests()
    ensures below { OfClosed RegionNodesAreBelowHosts }
    ensures one { OfClosed HostsAreOne }
{}

/// A law: under an ordered schedule with nests each hosted step has one host, and what a step reads
/// is an input, or must precede it, and directly. At two hosts of a nest steps are free; a step of
/// the pass's own list and a hosted one are, but where the former runs at the host or above, and it
/// runs below no host. Those of an inorder pass of a nest stand at each host as in its sequence.
pub fn ordered_nests()
    ensures hosted { UnderNests HostedStepsHaveOneHost }
    ensures directly { UnderNests WritersPrecedeDirectly }
    ensures precede { UnderNests WritersMustPrecede }
    ensures free { UnderNests HostsAreFree }
    ensures bound { UnderNests OwnStepsAreBound }
    ensures below { UnderNests OwnStepsRunBelowNoHost }
    ensures sequence { UnderNests InnerStepsStandInSequence }
{}

/// A law: under an ordered schedule with nests a legal order exists, and in each the writer of each
/// read stands before the reader. Computing the steps in any of them ends in the values that solve,
/// and exactly one table does. The legal orders of the flat schedule are some.
pub fn legal_orders_with_nests()
    ensures exists { UnderNests LegalOrderExistsWithNests }
    ensures before { UnderNests WritersStandBefore }
    ensures flat { UnderNests FlatOrdersAreLegal }
    ensures one_table { UnderNests OneTableSolvesWithNests }
    ensures solves { UnderNests RunsWithNestsSolve }
{}

/// A law: an ordered schedule stays ordered when each pass becomes stages of its own. One without
/// nests is ordered exactly as before, its steps must precede one another as before, and its stages
/// are the same work. So nests add nothing to there being an ordered schedule.
pub fn flat_schedules()
    ensures flat { FlatIsOrdered }
    ensures plain { PlainIsOrdered }
    ensures plain_steps { PlainStepsPrecede }
    ensures plain_work { PlainStagesAreWorkAsBefore }
    ensures nothing_added { NestsAddNothing }
{}
