ghost use Rattle.ftl_items.specs.stage_items.CutLaws.{OfCuts, SubtreesHaveTheirNodes};
ghost use Rattle.ftl_items.specs.stage_items.CutLaws.{EachNodeInOneItem};
ghost use Rattle.ftl_items.specs.stage_items.CutLaws.{ItemsHaveNodes, ItemsBeginOnce};
ghost use Rattle.ftl_items.specs.stage_items.CutLaws.{ItemsAreOfTwoSorts};
ghost use Rattle.ftl_items.specs.stage_items.CutLaws.{ItemsHaveTheirNodes, SmallestGrains};

/// A law: each node lies in exactly one item, and items have nodes of the tree alone, each
/// beginning once. An item is a whole tree of at most so many nodes in no larger such tree, or a
/// node that lies in none; with at most one node to a tree each node is an item.
pub fn cuts()
    ensures subtrees { SubtreesHaveTheirNodes }
    ensures one_item { OfCuts EachNodeInOneItem }
    ensures nodes { OfCuts ItemsHaveNodes }
    ensures once { OfCuts ItemsBeginOnce }
    ensures sorts { OfCuts ItemsAreOfTwoSorts }
    ensures whole { ItemsHaveTheirNodes }
    ensures smallest { OfCuts SmallestGrains }
{}
