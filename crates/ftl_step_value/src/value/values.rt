//! What the reads of a part give, by the values that were read.
ghost use Rattle.std.specs.Prelude.{◌≡◌, ◌<◌, None, Some, get_or, length, map, slice_get, take};
ghost use Rattle.ftl_model.specs.layout.AttributeGrammar.{seen_by};
ghost use Rattle.ftl_model.specs.layout.Tree.{size};
ghost use Rattle.ftl_order.specs.orders.Lawful.{EachMay};
ghost use Rattle.ftl_deps.specs.parts.RuleParts.{read_meant};
ghost use Rattle.ftl_visit.specs.step_reads.StepReads.{IsOfChildren, children_in, kids_in};
ghost use Rattle.ftl_step_value.specs.value.Spread.{spread};

use crate::value::counts::is_there;
use ftl_base::Val;
use ftl_deps::PartRead;
use ftl_tree::Tree;
use ftl_visit::Reads;
use std::marker::Model;

/// A value for each read.
#[derive(Drop)]
pub(crate) struct Whole<'a> {
    pub values: &'a [Val],
}

impl<'a> Reads for Whole<'a> {
    ghost list = { λ s. map Some s.values.now };

    fn read(&self, place: usize, _there: usize) -> Option<Val> {
        Some(self.values[place])
    }
}

/// A value for each read that is of anything. Contracts see what each read gives.
#[derive(Drop)]
pub(crate) struct Sparse<'a> {
    tree: &'a Tree<'a>,
    node: u32,
    at_hand: u32,
    reads: &'a [PartRead],
    values: &'a [Val],
}

impl<'a> Model for Sparse<'a> {
    ghost use Rattle.std.specs.Prelude.{List, Option};
    ghost use Rattle.ftl_model.specs.layout.Values;

    ghost Value = { List (Option Values.Value) };

    ghost use Rattle.ftl_step_value.specs.value.SparseReads.{IsSparse, given_by};

    ghost view = { given_by };

    ghost invariant = { IsSparse };
}

impl<'a> Sparse<'a> {
    pub(crate) fn new(
        tree: &'a Tree<'a>,
        node: u32,
        at_hand: u32,
        reads: &'a [PartRead],
        values: &'a [Val],
    ) -> Sparse<'a>
        requires node { node < size tree.now.tree }
        requires reads { EachMay (IsOfChildren (children_in tree.now node))
            (map read_meant reads.now) }
        requires values { length values.now
            ≡ length (seen_by (kids_in tree.now node) at_hand (map read_meant reads.now)) }
        ensures list { result
            ≡ spread (kids_in tree.now node) at_hand (map read_meant reads.now) values.now }
    {
        Sparse {
            tree,
            node,
            at_hand,
            reads,
            values,
        }
    }
}

impl<'a> Reads for Sparse<'a> {
    ghost list = { λ s. s };

    fn read(&self, place: usize, there: usize) -> Option<Val> {
        given(
            self.tree,
            self.node,
            self.at_hand,
            self.reads,
            self.values,
            place,
            there,
        )
    }
}

/// What the read at this place gives: the value behind those of the reads before it, so many of
/// which are of anything.
fn given(
    tree: &Tree<'_>,
    node: u32,
    at_hand: u32,
    reads: &[PartRead],
    values: &[Val],
    place: usize,
    there: usize,
) -> Option<Val>
    requires node { node < size tree.now.tree }
    requires reads { EachMay (IsOfChildren (children_in tree.now node)) (map read_meant reads.now) }
    requires values { length values.now
        ≡ length (seen_by (kids_in tree.now node) at_hand (map read_meant reads.now)) }
    requires place { place < length reads.now }
    requires there { there ≡ length (seen_by (kids_in tree.now node) at_hand
        (take place (map read_meant reads.now))) }
    ensures given { result ≡ get_or
        (spread (kids_in tree.now node) at_hand (map read_meant reads.now) values.now) place None }
{
    if !is_there(tree, node, reads[place], at_hand) {
        return None;
    }
    Some(value_at(values, there))
}

fn value_at(values: &[Val], place: usize) -> Val
    requires within { place < length values.now }
    ensures value { slice_get values.now place ≡ Some result }
{
    values[place]
}
