//! Parts of ranges of nodes.
ghost use Rattle.std.specs.Prelude.{◌+◌, ◌<◌, ◌≤◌};
ghost use Rattle.ftl_cursors.specs.declared.visits.nodes.NodeOrder.TheVariants.{Preorder, Reverse};
ghost use Rattle.ftl_cursors.specs.visits.NodeParts.{IsFirstPart};

use crate::visits::nodes::{NodeOrder, NodeRange};

/// Takes the nodes that come first in this order, those of one block.
pub(crate) fn take_part(nodes: &mut NodeRange, order: NodeOrder) -> NodeRange
    requires some { 0 < nodes.old.count }
    requires small { nodes.old.first + nodes.old.count ≤ 1048576 }
    ensures part { IsFirstPart order nodes.old nodes.new result }
{
    match order {
        NodeOrder::Preorder => take_front(nodes),
        NodeOrder::Reverse => take_back(nodes),
    }
}

/// Takes the first nodes in preorder.
fn take_front(nodes: &mut NodeRange) -> NodeRange
    requires some { 0 < nodes.old.count }
    requires small { nodes.old.first + nodes.old.count ≤ 1048576 }
    ensures part { IsFirstPart Preorder nodes.old nodes.new result }
{
    let first = nodes.first;
    let count = nodes.count.min(64 - first % 64);
    nodes.first += count;
    nodes.count -= count;
    NodeRange { first, count }
}

/// Takes the last nodes in preorder.
fn take_back(nodes: &mut NodeRange) -> NodeRange
    requires some { 0 < nodes.old.count }
    requires small { nodes.old.first + nodes.old.count ≤ 1048576 }
    ensures part { IsFirstPart Reverse nodes.old nodes.new result }
{
    let end = nodes.first + nodes.count;
    let count = nodes.count.min((end - 1) % 64 + 1);
    nodes.count -= count;
    NodeRange {
        first: end - count,
        count,
    }
}
