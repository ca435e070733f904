//! The nodes that a cursor has still to visit.
ghost use Rattle.std.specs.Prelude.{◌≡◌, ◌+◌, ◌<◌, ◌≤◌};
ghost use Rattle.ftl_cursors.specs.item_cursor.ItemSteps.{order_of};
ghost use Rattle.ftl_host_cursors.specs.HostPlaces.{IsFirstLeft};

use ftl_cursors::visits::NodeOrder;
use ftl_schedule::PassKind;

/// So many nodes from the first in preorder on, in the order in which they are visited.
#[derive(Clone, Copy)]
pub(crate) struct NodesLeft {
    pub order: NodeOrder,
    pub first: u32,
    pub count: u32,
}

/// Takes the node that comes first.
pub(crate) fn take_first(nodes: &mut NodesLeft) -> u32
    requires some { 0 < nodes.old.count }
    requires small { nodes.old.first + nodes.old.count ≤ 1048576 }
    ensures first { IsFirstLeft nodes.old nodes.new result }
{
    nodes.count -= 1;
    match nodes.order {
        NodeOrder::Preorder => {
            nodes.first += 1;
            nodes.first - 1
        }
        NodeOrder::Reverse => nodes.first + nodes.count,
    }
}

/// In which order a pass of this kind visits nodes.
pub(crate) fn node_order(kind: PassKind) -> NodeOrder
    ensures order { result ≡ order_of kind }
{
    match kind {
        PassKind::TopDown => NodeOrder::Preorder,
        PassKind::BottomUp => NodeOrder::Reverse,
        PassKind::InOrder => NodeOrder::Preorder,
    }
}
