//! Laws of the tests of regions.

ghost use Rattle.ftl_nest_text.specs.names.NestNamed.{TestsGiveOne, TestsTell};

/// A law: the tests of a lawful grammar tell which nests are closed, and which attributes are of
/// the region of a host.
pub fn tests_of_regions()
    ensures told { TestsTell }
{}

/// A law: any tests that tell the same give the same schedule by number, or the same first fault.
pub fn one_naming()
    ensures one { TestsGiveOne }
{}
