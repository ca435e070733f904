//! Laws that tie reads and writers to the pairs of `orders`.

ghost use Rattle.ftl_order.specs.dependencies.DepLaws.{OfEachRead, ReadsAreOfParts, SitesSayWhere};
ghost use Rattle.ftl_order.specs.dependencies.DepLaws.{WritersAreOfPairs, WritersAreRules};
ghost use Rattle.ftl_order.specs.dependencies.DepLaws.{FirstWriterIsFirst, NoneWhereNoneWrites};

/// A law: the reads of a rule are those of its parts, and the rules that write what is read are
/// those of its pairs. They run where the site says.
pub fn dep_reads_are_pairs()
    ensures parts { ReadsAreOfParts }
    ensures sites { OfEachRead SitesSayWhere }
    ensures writers { OfEachRead WritersAreOfPairs }
    ensures rules { OfEachRead WritersAreRules }
{}

/// A law: the first writer is the first rule by number, in the order of the text, that writes what
/// is read, and there is none exactly where no rule does.
pub fn first_writers()
    ensures first { OfEachRead FirstWriterIsFirst }
    ensures none { OfEachRead NoneWhereNoneWrites }
{}
