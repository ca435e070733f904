//! Ranges of nodes.
ghost use Rattle.std.specs.Prelude.{◌≡◌, ◌+◌, ◌≤◌, MatchOption};
ghost use Rattle.ftl_cursors.specs.visits.NodeRanges.{IsFirstNode};

/// In which order nodes are visited.
#[derive(Clone, Copy, Debug, PartialEq, Eq)]
pub enum NodeOrder {
    /// In preorder.
    Preorder,
    /// From the last in preorder to the first.
    Reverse,
}

/// So many nodes, from the first in preorder on.
#[derive(Clone, Copy, Debug)]
pub(crate) struct NodeRange {
    pub first: u32,
    pub count: u32,
}

/// Takes the node that comes first in this order.
#[inline(always)]
pub(crate) fn take_node(nodes: &mut NodeRange, order: NodeOrder) -> Option<u32>
    requires small { nodes.old.first + nodes.old.count ≤ 1048576 }
    ensures cases { MatchOption result ((nodes.old.count ≡ 0) × (nodes.new ≡ nodes.old))
        (IsFirstNode order nodes.old nodes.new) }
{
    if nodes.count == 0 {
        return None;
    }
    nodes.count -= 1;
    Some(match order {
        NodeOrder::Preorder => {
            nodes.first += 1;
            nodes.first - 1
        }
        NodeOrder::Reverse => nodes.first + nodes.count,
    })
}
