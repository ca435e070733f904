//! Counts of what rules read.
ghost use Rattle.std.specs.Prelude.{◌≡◌, ◌<◌, ◌≤◌, if◌then◌else◌, flat_map, length, map};
ghost use Rattle.std.specs.List.{range_with_len};
ghost use Rattle.ftl_model.specs.layout.AttributeGrammar.{occurrences, seen_by};
ghost use Rattle.ftl_model.specs.layout.Tree.{size};
ghost use Rattle.ftl_order.specs.orders.Lawful.{EachMay};
ghost use Rattle.ftl_deps.specs.parts.RuleParts.{parts_meant, read_meant};
ghost use Rattle.ftl_visit.specs.step_reads.StepReads.{IsOfChildren, MayStandAt, children_in};
ghost use Rattle.ftl_visit.specs.step_reads.StepReads.{kids_in};
ghost use Rattle.ftl_visit.specs.step_reads.StepReads.{reads_here};

use ftl_deps::{PartRead, RuleParts};
use ftl_tree::Tree;

/// How much a rule with these parts reads that runs at a node for the kid of this number (0 where
/// it is for the node itself).
pub fn read_count(tree: &Tree<'_>, node: u32, parts: &RuleParts, number: u32) -> u64
    requires node { node < size tree.now.tree }
    requires parts { MayStandAt tree.now node (parts_meant parts.now) }
    ensures count { result ≡ reads_here tree.now node (parts_meant parts.now) number }
    ensures bound { result ≤ 268435712 }
{
    match parts {
        RuleParts::Plain(reads) => seen_count(tree, node, reads.as_slice(), number),
        RuleParts::FirstThen(first, later) => {
            if number == 0 {
                seen_count(tree, node, first.as_slice(), number)
            } else {
                seen_count(tree, node, later.as_slice(), number)
            }
        }
        RuleParts::FoldOver(child, start, step) => {
            let before = seen_count(tree, node, start.as_slice(), number);
            before + step_count(tree, node, *child, step.as_slice())
        }
    }
}

/// How much the step of a fold reads over all kids of a child.
#[tactic(auto, using(crate::proofs::step_reads::ReadCounts::later_reads))]
fn step_count(tree: &Tree<'_>, node: u32, child: u32, step: &[PartRead]) -> u64
    requires node { node < size tree.now.tree }
    requires child { child < children_in tree.now node }
    requires step { EachMay (IsOfChildren (children_in tree.now node)) (map read_meant step.now) }
    requires few { length (map read_meant step.now) ≤ 256 }
    ensures count { result ≡ length (flat_map
        (λ n. seen_by (kids_in tree.now node) n (map read_meant step.now))
        (range_with_len 0 (kids_in tree.now node child))) }
    ensures bound { result ≤ 268435456 }
{
    let kids = kid_count(tree, node, child) as u64;
    if kids == 0 {
        return 0;
    }
    let first = seen_count(tree, node, step, 0);
    let later = seen_count(tree, node, step, 1);
    first + (kids - 1) * later
}

/// How many kids a node has in a child; there are fewer than nodes.
fn kid_count(tree: &Tree<'_>, node: u32, child: u32) -> u32
    requires node { node < size tree.now.tree }
    requires child { child < children_in tree.now node }
    ensures count { result ≡ kids_in tree.now node child }
    ensures bound { result ≤ 1048576 }
{
    let _nodes = tree.node_count();
    tree.kid_count(node, child)
}

/// How many occurrences some reads are of, while this kid is at hand.
fn seen_count(tree: &Tree<'_>, node: u32, reads: &[PartRead], at_hand: u32) -> u64
    requires node { node < size tree.now.tree }
    requires reads { EachMay (IsOfChildren (children_in tree.now node)) (map read_meant reads.now) }
    requires few { length (map read_meant reads.now) ≤ 256 }
    ensures count { result
        ≡ length (seen_by (kids_in tree.now node) at_hand (map read_meant reads.now)) }
    ensures bound { result ≤ 256 }
{
    let mut count = 0;
    for read in reads {
        count += occurrence_count(tree, node, *read, at_hand);
    }
    count
}

/// How many occurrences a read is of: one, or none of the kid before the first or the last of none.
fn occurrence_count(tree: &Tree<'_>, node: u32, read: PartRead, at_hand: u32) -> u64
    requires node { node < size tree.now.tree }
    requires read { IsOfChildren (children_in tree.now node) (read_meant read) }
    ensures count { result
        ≡ length (occurrences (kids_in tree.now node) at_hand (read_meant read)) }
    ensures bound { result ≤ 1 }
{
    match read {
        PartRead::Own(_) | PartRead::Single(_, _) => 1,
        PartRead::Each(_, _) | PartRead::This(_, _) => 1,
        PartRead::Prev(_, _) => one_where(at_hand > 0),
        PartRead::Last(child, _) => one_where(kid_count(tree, node, child) > 0),
    }
}

fn one_where(test: bool) -> u64
    ensures one { result ≡ (if test then 1 else 0) }
{
    if test { 1 } else { 0 }
}
