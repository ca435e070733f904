//! A law on the pairs of faults.
ghost use Rattle.ftl_example.specs.examples.Numbered.{FaultPairsAreOne};
ghost use Rattle.ftl_example.specs.pairs.FirstPair.{FaultsHavePairs};

/// A law: a fault that names two rules is of a pair, by the reader's first read that is not
/// ordered, and of no other.
pub fn first_pairs()
    ensures pairs { FaultsHavePairs }
    ensures one { FaultPairsAreOne }
{}
