//! Laws on circular vertices, and on the trees of noncircular grammars.

ghost use Rattle.ftl_noncircular.specs.grammars.NoncircularLaws.{ChainsEnd, CirclesAreDecided};
ghost use Rattle.ftl_noncircular.specs.grammars.NoncircularLaws.{DependenceIsClosed, FoundDecides};
ghost use Rattle.ftl_noncircular.specs.grammars.NoncircularLaws.{OneListWhereNoncircular};
ghost use Rattle.ftl_noncircular.specs.grammars.NoncircularLaws.{OneTableWhereNoncircular};

/// A law: the least closed family is closed.
pub fn dependence_is_closed()
    ensures closed { DependenceIsClosed }
{}

/// A law: a closed family with no other pairs than the least one tells the circular vertices.
pub fn circular_vertices_are_found()
    ensures found { FoundDecides }
{}

/// A law: each grammar is noncircular, or has a first circular vertex.
pub fn circles_are_decided()
    ensures decided { CirclesAreDecided }
{}

/// A law: on a tree of a lawful noncircular grammar each chain of reads has fewer reads than the
/// tree has instances.
pub fn chains_of_reads_end()
    ensures chains { ChainsEnd }
{}

/// A law: on each tree of a lawful noncircular grammar some table solves, and any two that solve
/// agree at every instance.
pub fn one_table_where_noncircular()
    ensures one_table { OneTableWhereNoncircular }
{}

/// A law: and exactly one list of values solves, with one value for each instance.
pub fn one_list_where_noncircular()
    ensures one_list { OneListWhereNoncircular }
{}
