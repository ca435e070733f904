//! Laws on trees that are built.
ghost use Rattle.ftl_example.specs.trees.CountedLaws.{CountedTreesAreGrown};
ghost use Rattle.ftl_example.specs.trees.ExampleTree.{GrowsExamples};
ghost use Rattle.ftl_example.specs.trees.Grown.{GrowsLeastTrees};
ghost use Rattle.ftl_example.specs.trees.WorkedExamples.{ColumnBeforeWord, ColumnInColumn};
ghost use Rattle.ftl_example.specs.trees.WorkedExamples.{NodeAlone, NoneReached, StackSizes};
ghost use Rattle.ftl_example.specs.trees.WorkedExamples.{WordInColumns};

/// A law: the trees that are built by the last tables are least ones: of an interface, and of those
/// that show a pair.
pub fn grown_trees()
    ensures least { GrowsLeastTrees }
    ensures examples { GrowsExamples }
    ensures counted { CountedTreesAreGrown }
{}

/// A law: sizes and trees as they were typed by hand.
pub fn worked_examples()
    ensures sizes { StackSizes }
    ensures nested { ColumnInColumn }
    ensures beside { ColumnBeforeWord }
    ensures deeper { WordInColumns }
    ensures alone { NodeAlone }
    ensures unreached { NoneReached }
{}
