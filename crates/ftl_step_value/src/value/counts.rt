//! How much reads are of.
ghost use Rattle.std.specs.Prelude.{◌≡◌, ◌<◌, ◌≤◌, if◌then◌else◌, length, map};
ghost use Rattle.ftl_model.specs.layout.AttributeGrammar.{occurrences, seen_by};
ghost use Rattle.ftl_model.specs.layout.Tree.{size};
ghost use Rattle.ftl_order.specs.orders.Lawful.{EachMay};
ghost use Rattle.ftl_deps.specs.parts.RuleParts.{read_meant};
ghost use Rattle.ftl_visit.specs.step_reads.StepReads.{IsOfChildren, children_in, kids_in};

use ftl_deps::PartRead;
use ftl_tree::Tree;

/// How many of some reads are of anything, while this kid is at hand.
pub(crate) fn seen_count(tree: &Tree<'_>, node: u32, reads: &[PartRead], at_hand: u32) -> usize
    requires node { node < size tree.now.tree }
    requires reads { EachMay (IsOfChildren (children_in tree.now node)) (map read_meant reads.now) }
    ensures count { result
        ≡ length (seen_by (kids_in tree.now node) at_hand (map read_meant reads.now)) }
{
    let mut count = 0;
    for read in reads {
        if is_there(tree, node, *read, at_hand) {
            count += 1;
        }
    }
    count
}

/// Whether a read is of anything: all are but one of the kid before the first, and of the last
/// kid of none.
pub(crate) fn is_there(tree: &Tree<'_>, node: u32, read: PartRead, at_hand: u32) -> bool
    requires node { node < size tree.now.tree }
    requires read { IsOfChildren (children_in tree.now node) (read_meant read) }
    ensures count { length (occurrences (kids_in tree.now node) at_hand (read_meant read))
        ≡ (if result then 1 else 0) }
{
    match read {
        PartRead::Own(_) | PartRead::Single(_, _) | PartRead::Each(_, _) | PartRead::This(_, _) => {
            true
        }
        PartRead::Prev(_, _) => at_hand > 0,
        PartRead::Last(child, _) => tree.kid_count(node, child) > 0,
    }
}
