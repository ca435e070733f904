//! Laws on what is shown.
ghost use Rattle.ftl_example.specs.shows.ExampleLaws.{ExamplesBySize, PrecedingIsOrdered};
ghost use Rattle.ftl_example.specs.shows.ExampleLaws.{ShownIsRead};

/// A law: a pair that is not ordered has an example, unless no tree shows it or each is too large.
pub fn examples()
    ensures read { ShownIsRead }
    ensures ordered { PrecedingIsOrdered }
    ensures by_size { ExamplesBySize }
{}
