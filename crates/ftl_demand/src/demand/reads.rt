//! What reads give, by the words that are there.
ghost use Rattle.std.specs.Prelude.{◌≡◌, ◌<◌, List, map, IfOk, IfNone, IfSome};
ghost use Rattle.ftl_deps.specs.parts.RuleParts.{read_meant};
ghost use Rattle.ftl_deps.specs.reads.Meant.{meant};
ghost use Rattle.ftl_meaning.specs.grammars.Meaning.{value_seen};
ghost use Rattle.ftl_model.specs.layout.AttributeGrammar.{occurrences, seen_by};
ghost use Rattle.ftl_model.specs.layout.Tree.{size};
ghost use Rattle.ftl_model.specs.layout.Values.{Value};
ghost use Rattle.ftl_order.specs.orders.Lawful.{EachMay};
ghost use Rattle.ftl_step_value.specs.cells.Seen.{IsThere};
ghost use Rattle.ftl_visit.specs.step_reads.StepReads.{kids_in};
ghost use Rattle.ftl_demand.specs.demand.Outcomes.{IsGiven, IsLacking, instances_seen, value_at};
ghost use Rattle.ftl_demand.specs.demand.Sites.{AreWordsOf};
ghost use Rattle.ftl_demand.specs.demand.Words.{IsSolution};

use crate::demand::seen::seen;
use crate::demand::waiting::{Given, NodeAttr};
use ftl_base::{Val, val_of};
use ftl_deps::PartRead;
use ftl_tree::Tree;
use std::alloc::AllocError;

/// Gathers what some reads at a node give while this kid is at hand; or the first attribute of them
/// whose word is not there yet.
pub(crate) fn gather(
    tree: &Tree<'_>,
    node: u32,
    at_hand: u32,
    reads: &[PartRead],
    words: &[u64],
    values: &mut Vec<Option<Val>>,
) -> Result<Option<NodeAttr>, AllocError>
    requires node { node < size tree.now.tree }
    requires there { EachMay (IsThere tree.now node at_hand) (map read_meant reads.now) }
    requires words { AreWordsOf tree.now words.now }
    ensures lacking { IfOk result (λ o. IfSome o (IsLacking tree.now words.now
        (instances_seen tree.now node
        (seen_by (kids_in tree.now node) at_hand (map read_meant reads.now))))) }
    ensures values { IfOk result (λ o. IfNone o ((vs : List Value)
        → IsSolution (meant tree.now.checked) tree.now.tree vs
        → values.new.items ≡ map (λ r. value_seen (value_at tree.now vs node)
        (occurrences (kids_in tree.now node) at_hand r)) (map read_meant reads.now))) }
{
    values.clear();
    for read in reads {
        match given(tree, node, *read, at_hand, words) {
            Given::Is(value) => values.push(value)?,
            Given::Lacks(wanted) => return Ok(Some(wanted)),
        }
    }
    Ok(None)
}

/// What a read at a node gives.
#[inline(always)]
fn given(tree: &Tree<'_>, node: u32, read: PartRead, at_hand: u32, words: &[u64]) -> Given
    requires node { node < size tree.now.tree }
    requires there { IsThere tree.now node at_hand (read_meant read) }
    requires words { AreWordsOf tree.now words.now }
    ensures given { IsGiven tree.now node at_hand words.now (read_meant read) result }
{
    let Some(wanted) = seen(tree, node, read, at_hand) else {
        return Given::Is(None);
    };
    let cell = tree.instance(wanted.node, wanted.attr);
    let word = words[cell as usize];
    if word == 0 {
        return Given::Lacks(wanted);
    }
    Given::Is(val_of(word))
}
