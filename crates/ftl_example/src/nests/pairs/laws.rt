//! A law on the pairs of faults.
ghost use Rattle.ftl_example.specs.nests.pairs.NestPair.{NestFaultPairsAreOne};
ghost use Rattle.ftl_example.specs.nests.pairs.NestPair.{NestFaultsHavePairs};

/// A law: a fault of a schedule with nests that names two rules is of a pair, by the reader's first
/// read that is not ordered, and of no other.
pub fn first_nest_pairs()
    ensures pairs { NestFaultsHavePairs }
    ensures one { NestFaultPairsAreOne }
{}
