//! What the table of ordered reads with nests has to do with ordered schedules.

ghost use Rattle.ftl_regions.specs.pairs.NestReads.{NoneRefusedIsOrdered};

/// A law: no pair of a lawful grammar is refused exactly where each pair is ordered.
pub fn refused_pairs()
    ensures exact { NoneRefusedIsOrdered }
{}
