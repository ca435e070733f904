//! Laws on what is shown.
ghost use Rattle.ftl_example.specs.nests.examples.NestExamples.{NestExamplesBySize};
ghost use Rattle.ftl_example.specs.nests.examples.NestExamples.{PrecedingIsOrderedWithNests};

/// A law: where the writer of a shown read must precede the reader, the schedule with nests orders
/// the pair.
pub fn nest_examples()
    ensures ordered { PrecedingIsOrderedWithNests }
{}

/// A law: a pair that a schedule with nests leaves unordered has an example, unless no tree shows
/// it or each is too large.
pub fn nest_examples_by_size()
    ensures by_size { NestExamplesBySize }
{}
