//! The cells of what a rule reads at a node.
ghost use Rattle.std.specs.Prelude.{◌≡◌, ◌<◌, map};
ghost use Rattle.std.specs.Option.{option_to_list};
ghost use Rattle.ftl_model.specs.layout.AttributeGrammar.{kid, kid_before, occurrences};
ghost use Rattle.ftl_model.specs.layout.Tree.{size};
ghost use Rattle.ftl_deps.specs.parts.RuleParts.{read_meant};
ghost use Rattle.ftl_visit.specs.step_reads.StepReads.{children_in, kids_in};
ghost use Rattle.ftl_step_value.specs.cells.Seen.{EachIsSeen, IsSeen, IsThere, cell_seen};

use ftl_deps::PartRead;
use ftl_tree::Tree;

/// The cell of a read at a node while this kid is at hand; none where there is nothing to read.
#[inline(always)]
pub fn read_cell(tree: &Tree<'_>, node: u32, read: PartRead, at_hand: u32) -> Option<u32>
    requires node { node < size tree.now.tree }
    requires there { IsThere tree.now node at_hand (read_meant read) }
    ensures cell { option_to_list result ≡ map (cell_seen tree.now node)
        (occurrences (kids_in tree.now node) at_hand (read_meant read)) }
{
    match read {
        PartRead::Own(attr) => Some(tree.instance(node, attr)),
        PartRead::Single(child, attr) => Some(kid_cell(tree, node, child, 0, attr)),
        PartRead::Each(child, attr) => Some(kid_cell(tree, node, child, at_hand, attr)),
        PartRead::This(child, attr) => Some(kid_cell(tree, node, child, at_hand, attr)),
        PartRead::Prev(child, attr) => cell_before(tree, node, child, at_hand, attr),
        PartRead::Last(child, attr) => {
            cell_before(tree, node, child, tree.kid_count(node, child), attr)
        }
    }
}

/// The cell of an attribute of the kid before the one of this number, where there is one.
fn cell_before(tree: &Tree<'_>, node: u32, child: u32, number: u32, attr: u32) -> Option<u32>
    requires node { node < size tree.now.tree }
    requires there { EachIsSeen tree.now node (kid_before child attr number) }
    ensures cell { option_to_list result
        ≡ map (cell_seen tree.now node) (kid_before child attr number) }
{
    if number == 0 {
        return None;
    }
    Some(kid_cell(tree, node, child, number - 1, attr))
}

/// The cell of an attribute of a kid of a node.
#[inline(always)]
pub(crate) fn kid_cell(tree: &Tree<'_>, node: u32, child: u32, number: u32, attr: u32) -> u32
    requires node { node < size tree.now.tree }
    requires there { IsSeen tree.now node (kid child number attr) }
    ensures cell { result ≡ cell_seen tree.now node (kid child number attr) }
{
    let _nodes = tree.node_count();
    tree.kid_instance(node, child, number, attr)
}
