ghost use Rattle.ftl_order.specs.orders.Numbers.{NodesHaveNumbers, NumbersHaveNodes};
ghost use Rattle.ftl_order.specs.orders.Numbers.{PreorderIsWhole};
ghost use Rattle.ftl_order.specs.orders.Numbers.{SubtreesAreRanges, InstancesHaveNumbers};
ghost use Rattle.ftl_order.specs.orders.Numbers.{NumbersHaveInstances};

/// A law: nodes and preorder numbers are one to one.
pub fn preorder_numbers()
    ensures nodes { NodesHaveNumbers }
    ensures numbers { NumbersHaveNodes }
    ensures whole { PreorderIsWhole }
{}

/// A law: the nodes below a node are those whose numbers follow its own, one fewer than its tree
/// has.
pub fn subtree_ranges()
    ensures ranges { SubtreesAreRanges }
{}

/// A law: instances and their numbers are one to one.
pub fn instance_numbers()
    ensures instances { InstancesHaveNumbers }
    ensures numbers { NumbersHaveInstances }
{}
