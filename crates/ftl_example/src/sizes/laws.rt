//! Laws on least sizes.
ghost use Rattle.ftl_example.specs.shows.ExampleLaws.{LeastByRounds, LeastUpTo, NoneIsSmaller};
ghost use Rattle.ftl_example.specs.shows.ExampleLaws.{SomeIsSo};
ghost use Rattle.ftl_example.specs.sizes.Limited.{ExamplesUpTo};
ghost use Rattle.ftl_example.specs.sizes.PlaceTable.{TablesShowExamples};
ghost use Rattle.ftl_example.specs.sizes.SizeTable.{TablesAreSizes};

/// A law: after as many rounds as interfaces, the sizes are those of least trees.
pub fn least_rounds()
    ensures least { LeastByRounds }
    ensures counted { LeastUpTo }
{}

/// A law: the least size of a tree that shows a pair, by rounds.
pub fn least_examples()
    ensures none_smaller { NoneIsSmaller }
    ensures some_so { SomeIsSo }
    ensures counted { ExamplesUpTo }
{}

/// A law: the tables have the sizes of the rounds.
pub fn tables_of_sizes()
    ensures sizes { TablesAreSizes }
    ensures examples { TablesShowExamples }
{}
