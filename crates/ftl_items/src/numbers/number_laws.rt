ghost use Rattle.ftl_items.specs.numbers.NumberLaws.{ItemsBeginBelowLargeTrees, ItemsAreRanges};
ghost use Rattle.ftl_items.specs.numbers.NumberLaws.{OfPasses};
ghost use Rattle.ftl_items.specs.numbers.NumberLaws.{PassesStandInOrder, ItemsStandAtTheirPlaces};
ghost use Rattle.ftl_items.specs.numbers.NumberLaws.{NextsAreNumbered, PredecessorsAreNumbered};

/// A law: an item begins at the root, and where the parent's tree has more nodes than an item. Its
/// nodes are a range of preorder numbers. The items of a pass stand one after another, each at the
/// count of those that begin before it, or behind it in a bottomup pass. An item hands on to those
/// of its node's kids, first to last, or to that of its parent.
pub fn item_numbers()
    ensures begins { ItemsBeginBelowLargeTrees }
    ensures ranges { ItemsAreRanges }
    ensures passes { OfPasses PassesStandInOrder }
    ensures places { OfPasses ItemsStandAtTheirPlaces }
    ensures nexts { OfPasses NextsAreNumbered }
    ensures predecessors { OfPasses PredecessorsAreNumbered }
{}
