//! What a read is of.
ghost use Rattle.std.specs.Prelude.{◌≡◌, ◌<◌, IfSome, map};
ghost use Rattle.std.specs.Option.{option_map, option_to_list};
ghost use Rattle.ftl_deps.specs.parts.RuleParts.{read_meant};
ghost use Rattle.ftl_model.specs.layout.AttributeGrammar.{kid, kid_before, occurrences};
ghost use Rattle.ftl_model.specs.layout.Path.{node_at};
ghost use Rattle.ftl_model.specs.layout.Solves.{seen_from};
ghost use Rattle.ftl_model.specs.layout.Tree.{size};
ghost use Rattle.ftl_step_value.specs.cells.Seen.{EachIsSeen, IsSeen, IsThere};
ghost use Rattle.ftl_visit.specs.step_reads.StepReads.{kids_in};
ghost use Rattle.ftl_demand.specs.demand.Outcomes.{instances_seen};
ghost use Rattle.ftl_demand.specs.demand.Sites.{IsAttr, instance_at};

use crate::demand::waiting::NodeAttr;
use ftl_deps::PartRead;
use ftl_tree::Tree;

/// The attribute that a read at a node is of while this kid is at hand; none where there is nothing
/// to read.
#[inline(always)]
pub(crate) fn seen(tree: &Tree<'_>, node: u32, read: PartRead, at_hand: u32) -> Option<NodeAttr>
    requires node { node < size tree.now.tree }
    requires there { IsThere tree.now node at_hand (read_meant read) }
    ensures seen { option_to_list (option_map (instance_at tree.now) result)
        ≡ instances_seen tree.now node
        (occurrences (kids_in tree.now node) at_hand (read_meant read)) }
    ensures known { IfSome result (IsAttr tree.now) }
{
    match read {
        PartRead::Own(attr) => Some(NodeAttr { node, attr }),
        PartRead::Single(child, attr) => Some(kid_seen(tree, node, child, 0, attr)),
        PartRead::Each(child, attr) => Some(kid_seen(tree, node, child, at_hand, attr)),
        PartRead::This(child, attr) => Some(kid_seen(tree, node, child, at_hand, attr)),
        PartRead::Prev(child, attr) => seen_before(tree, node, child, at_hand, attr),
        PartRead::Last(child, attr) => {
            seen_before(tree, node, child, tree.kid_count(node, child), attr)
        }
    }
}

/// An attribute of the kid before the one of this number, where there is one.
fn seen_before(tree: &Tree<'_>, node: u32, child: u32, number: u32, attr: u32) -> Option<NodeAttr>
    requires node { node < size tree.now.tree }
    requires there { EachIsSeen tree.now node (kid_before child attr number) }
    ensures seen { option_to_list (option_map (instance_at tree.now) result)
        ≡ instances_seen tree.now node (kid_before child attr number) }
    ensures known { IfSome result (IsAttr tree.now) }
{
    if number == 0 {
        return None;
    }
    Some(kid_seen(tree, node, child, number - 1, attr))
}

/// An attribute of a kid of a node.
#[inline(always)]
fn kid_seen(tree: &Tree<'_>, node: u32, child: u32, number: u32, attr: u32) -> NodeAttr
    requires node { node < size tree.now.tree }
    requires there { IsSeen tree.now node (kid child number attr) }
    ensures seen { instance_at tree.now result
        ≡ seen_from (node_at tree.now.tree node) (kid child number attr) }
    ensures known { IsAttr tree.now result }
{
    let _nodes = tree.node_count();
    NodeAttr {
        node: tree.kid(node, child, number),
        attr,
    }
}
