//! What the tests of regions have to do with the sides of nests.

ghost use Rattle.ftl_regions.specs.hosts.Sides.{SidesAreKept};

/// A law: a nest keeps its sides exactly where it is closed, no attribute of the own list of its
/// pass is of the region, and all of its own are.
pub fn kept_sides()
    ensures kept { SidesAreKept }
{}
