//! The keys of instances.
ghost use Rattle.std.specs.Prelude.{◌≡◌, ◌≢◌, ◌<◌, ◌≤◌, ◌+◌, ◌-◌, ◌*◌};
ghost use Rattle.ftl_deps.specs.reads.Meant.{meant};
ghost use Rattle.ftl_meaning.specs.grammars.GrammarOf.{sort_of};
ghost use Rattle.ftl_model.specs.layout.Path.{node_at, number_of};
ghost use Rattle.ftl_model.specs.layout.Solves.{instance_of, rule_node};
ghost use Rattle.ftl_model.specs.layout.Tree.{size};
ghost use Rattle.ftl_relayout.specs.keys.Keys as keys;
ghost use Rattle.ftl_schedule.specs.declared.stages.types.Schedule.{Schedule};
ghost use Rattle.ftl_schedule.specs.stages.Stages.{kind_of as kind_meant};
ghost use Rattle.ftl_relayout.specs.keys.KeysHere.{IsAttributeOf, placing};
ghost use Rattle.ftl_relayout.specs.keys.KeyPlaces.{IsKeyPlace};

use crate::keys::places::KeyPlace;
use ftl_grammar::AttrKind;
use ftl_schedule::PassKind;
use ftl_tree::Tree;

/// The key of an attribute of a node, of which it is known where the schedule has it: the stage,
/// the time and the tie in its pass, the place in the list, the node, the attribute.
pub(crate) fn key_of(at: &KeyPlace, tree: &Tree<'_>, node: u32, attr: u32) -> u128
    requires attribute { IsAttributeOf tree.now node attr }
    requires stage { at.now.stage < 2097152 }
    requires index { at.now.index < 2097152 }
    ensures key { (s : Schedule) → IsKeyPlace tree.now.checked s attr at.now
        → result ≡ keys.key_of (meant tree.now.checked) (placing s) tree.now.tree
        (instance_of (node_at tree.now.tree node) attr) }
{
    let _nodes = tree.node_count();
    let time = time_of(tree, at.pass, at.kind, node);
    let tie = tie_of(tree, at.pass, at.kind, node);
    let high = (at.stage as u128 * 2097152 + time as u128) * 2097152 + tie as u128;
    let low = (high * 2097152 + at.index as u128) * 2097152 + node as u128;
    low * 2097152 + attr as u128
}

/// The time of an attribute in its pass.
#[tactic(auto, using(crate::proofs::keys::Here::number_here))]
fn time_of(tree: &Tree<'_>, pass: PassKind, kind: AttrKind, node: u32) -> u32
    requires node { node < size tree.now.tree }
    ensures time { result
        ≡ keys.time_of (kind_meant pass) tree.now.tree (sort_of kind) (node_at tree.now.tree node) }
    ensures small { result < 2097152 }
{
    let _nodes = tree.node_count();
    match pass {
        PassKind::TopDown => visited(tree, kind, node),
        PassKind::BottomUp => tree.node_count() - visited(tree, kind, node),
        PassKind::InOrder => match kind {
            AttrKind::Syn => node + tree.subtree_size(node),
            AttrKind::Input => node,
            AttrKind::Inh => node,
            AttrKind::Local => node,
        },
    }
}

/// What comes first at one time.
#[tactic(auto, using(crate::proofs::keys::Here::number_here))]
fn tie_of(tree: &Tree<'_>, pass: PassKind, kind: AttrKind, node: u32) -> u32
    requires node { node < size tree.now.tree }
    ensures tie { result
        ≡ keys.tie_of (kind_meant pass) tree.now.tree (sort_of kind) (node_at tree.now.tree node) }
    ensures small { result < 2097152 }
{
    let _nodes = tree.node_count();
    match pass {
        PassKind::TopDown | PassKind::BottomUp => 0,
        PassKind::InOrder => match kind {
            AttrKind::Input => 0,
            AttrKind::Syn => tree.node_count() - node,
            AttrKind::Inh => tree.node_count() + 1,
            AttrKind::Local => tree.node_count() + 2,
        },
    }
}

/// The node at which the rule of an attribute runs.
#[tactic(auto, using(crate::proofs::keys::Here::number_here, crate::proofs::keys::Here::visited_parent, crate::proofs::keys::Here::visited_root))]
fn visited(tree: &Tree<'_>, kind: AttrKind, node: u32) -> u32
    requires node { node < size tree.now.tree }
    ensures visited { result
        ≡ number_of tree.now.tree (rule_node (sort_of kind) (node_at tree.now.tree node)) }
    ensures within { result < size tree.now.tree }
{
    let _nodes = tree.node_count();
    match kind {
        AttrKind::Inh => match tree.parent(node) {
            Some(parent) => parent,
            None => 0,
        },
        AttrKind::Input => node,
        AttrKind::Syn => node,
        AttrKind::Local => node,
    }
}
