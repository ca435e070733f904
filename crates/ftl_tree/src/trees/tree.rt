//! Trees as flat rows.
ghost use Rattle.std.specs.Prelude.{◌≡◌, ◌<◌, ◌≤◌, length, pos, slice_index_or, Contains, IfOk};
ghost use Rattle.std.specs.Option.{option_map};
ghost use Rattle.ftl_model.specs.lists.Lists.{place_in};
ghost use Rattle.ftl_model.specs.layout.AttributeGrammar.{attributes_of, class_inputs, input_value};
ghost use Rattle.ftl_model.specs.layout.Path.{node_at, class_at, child_at, kid_at, kids_at};
ghost use Rattle.ftl_model.specs.layout.Path.{size_at};
ghost use Rattle.ftl_model.specs.layout.Path.{down, number_of, parent_of, inputs_at};
ghost use Rattle.ftl_model.specs.layout.Solves.{instance_of};
ghost use Rattle.ftl_model.specs.layout.Table.{first_instance, instance_count, instance_number};
ghost use Rattle.ftl_model.specs.layout.Tree.{Forest, size};
ghost use Rattle.ftl_model.specs.layout.TreeOf.{IsInput, IsTreeOf};
ghost use Rattle.ftl_model.specs.layout.Values.{number};
ghost use Rattle.ftl_deps.specs.reads.Meant.{meant};
ghost use Rattle.ftl_tree.specs.rows.KidRuns.{IsChildOf, kid_first_instances, kid_numbers};
ghost use Rattle.ftl_tree.specs.rows.Rows.{AreNodesOf, row_of};
ghost use Rattle.ftl_tree.specs.trees.WithInput.{with_input};

use crate::rows::{ClassRow, NodeRow, Place, subtree_sizes};
use crate::trees::build::{
    KidRuns, child_slots, first_inputs, first_instances, firsts_of_kids, kid_runs,
};
use crate::trees::class_attrs::is_shared;
use crate::trees::class_places::attribute_places;
use crate::trees::class_table::class_rows;
use crate::trees::input_counts::counts_of_inputs;
use crate::trees::runs::run_of;
use ftl_checked::Checked;
use std::alloc::{AllocError, Global};
use std::marker::Model;

/// A tree of a checked grammar, as rows in preorder. Contracts see the grammar and the tree.
#[derive(Drop)]
pub struct Tree<'a> {
    checked: &'a Checked,
    classes: Vec<ClassRow>,
    input_counts: Vec<u32>,
    rows: Vec<NodeRow>,
    sizes: Vec<u32>,
    inputs: Vec<i64>,
    first_instances: Vec<u32>,
    first_inputs: Vec<u32>,
    slots: Vec<u32>,
    run_starts: Vec<u32>,
    kids: Vec<u32>,
    kid_first_instances: Vec<u32>,
    attribute_places: Vec<u32>,
}

impl<'a> Model for Tree<'a> {
    ghost use Rattle.std.specs.Coded.{codes};
    ghost use Rattle.ftl_model.specs.layout.ForestCode.{forest_code};
    ghost use Rattle.ftl_grammar.specs.contracts.syntax.expression.Expr as e;
    ghost use Rattle.ftl_tree.specs.trees.CheckedTree.{CheckedTree};

    ghost Value = { CheckedTree };

    ghost coded = { Prim.hlevel (codes, e.the_row.coded, forest_code) };

    ghost use Rattle.ftl_tree.specs.trees.FlatTree.{checked_tree_inside, IsFlat};

    ghost view = { checked_tree_inside };

    ghost invariant = { IsFlat };
}

impl<'a> Tree<'a> {
    /// The grammar.
    pub fn checked(&self) -> &Checked
        ensures grammar { result.now ≡ self.now.checked }
    {
        self.checked
    }

    /// How many nodes there are.
    pub fn node_count(&self) -> u32
        ensures count { result ≡ size self.now.tree }
        ensures bound { result ≤ 1048576 }
        ensures is_tree { IsTreeOf (meant self.now.checked) self.now.tree }
    {
        self.rows.len() as u32
    }

    /// The row of a node.
    pub fn row(&self, node: u32) -> NodeRow
        requires node { node < size self.now.tree }
        ensures row { result ≡ row_of self.now.tree (node_at self.now.tree node) }
        ensures is_tree { IsTreeOf (meant self.now.checked) self.now.tree }
    {
        self.rows[node as usize]
    }

    /// The class of a node.
    pub fn class(&self, node: u32) -> u32
        requires node { node < size self.now.tree }
        ensures class { result ≡ class_at self.now.tree (node_at self.now.tree node) }
    {
        self.row(node).class
    }

    /// The number of a node's parent; none for the root.
    pub fn parent(&self, node: u32) -> Option<u32>
        requires node { node < size self.now.tree }
        ensures parent { result
            ≡ option_map (number_of self.now.tree) (parent_of (node_at self.now.tree node)) }
    {
        if node == 0 {
            return None;
        }
        Some(self.row(node).parent)
    }

    /// Where a node other than the root stands.
    pub fn place(&self, node: u32) -> Place
        requires not_root { 0 < node }
        requires node { node < size self.now.tree }
        ensures child { result.child ≡ child_at (node_at self.now.tree node) }
        ensures kid { result.kid ≡ kid_at (node_at self.now.tree node) }
    {
        self.row(node).place
    }

    /// How many nodes the tree at a node has, the node itself counted.
    pub fn subtree_size(&self, node: u32) -> u32
        requires node { node < size self.now.tree }
        ensures size { result ≡ size_at self.now.tree (node_at self.now.tree node) }
    {
        self.sizes[node as usize]
    }
}

impl<'a> Tree<'a> {
    /// The numbers of a node's kids in a child, first to last.
    pub fn kids(&self, node: u32, child: u32) -> &[u32]
        requires at { IsChildOf (meant self.now.checked) self.now.tree node child }
        ensures kids { result.now
            ≡ kid_numbers self.now.tree (node_at self.now.tree node) child }
    {
        let run = run_of(&self.slots, &self.run_starts, node, child);
        &self.kids[run.start as usize..run.end as usize]
    }

    /// How many kids a node has in a child.
    pub fn kid_count(&self, node: u32, child: u32) -> u32
        requires at { IsChildOf (meant self.now.checked) self.now.tree node child }
        ensures count { result ≡ kids_at self.now.tree (node_at self.now.tree node) child }
    {
        let run = run_of(&self.slots, &self.run_starts, node, child);
        run.end - run.start
    }

    /// The number of a kid of a node.
    pub fn kid(&self, node: u32, child: u32, k: u32) -> u32
        requires at { IsChildOf (meant self.now.checked) self.now.tree node child }
        requires k { k < kids_at self.now.tree (node_at self.now.tree node) child }
        ensures kid { result
            ≡ number_of self.now.tree (down child k (node_at self.now.tree node)) }
    {
        self.kids(node, child)[k as usize]
    }
}

impl<'a> Tree<'a> {
    /// How many attribute instances the tree has.
    pub fn instance_count(&self) -> u32
        ensures count { result ≡ instance_count (meant self.now.checked) self.now.tree }
        ensures bound { result ≤ 33554432 }
    {
        self.first_instances[self.rows.len()]
    }

    /// The number of a node's first instance. The attributes of its class follow in order of
    /// number, its interface's before its own.
    pub fn first_instance(&self, node: u32) -> u32
        requires node { node < size self.now.tree }
        ensures first { result
            ≡ first_instance (meant self.now.checked) self.now.tree (node_at self.now.tree node) }
    {
        self.first_instances[node as usize]
    }

    /// The number of an instance: by node, then by the number of the attribute.
    pub fn instance(&self, node: u32, attr: u32) -> u32
        requires node { node < size self.now.tree }
        requires attr { Contains (attributes_of (meant self.now.checked)
            (class_at self.now.tree (node_at self.now.tree node))) attr }
        ensures instance { result
            ≡ instance_number (meant self.now.checked) self.now.tree
            (instance_of (node_at self.now.tree node) attr) }
    {
        self.first_instances[node as usize] + self.attribute_places[attr as usize]
    }

    /// The number of an instance of a kid of a node.
    pub fn kid_instance(&self, node: u32, child: u32, k: u32, attr: u32) -> u32
        requires at { IsChildOf (meant self.now.checked) self.now.tree node child }
        requires k { k < kids_at self.now.tree (node_at self.now.tree node) child }
        requires attr { Contains (attributes_of (meant self.now.checked)
            (class_at self.now.tree (down child k (node_at self.now.tree node)))) attr }
        ensures instance { result
            ≡ instance_number (meant self.now.checked) self.now.tree
            (instance_of (down child k (node_at self.now.tree node)) attr) }
    {
        self.kids_first_instances(node, child)[k as usize] + self.attribute_places[attr as usize]
    }

    /// The numbers of the first instances of a node's kids in a child, first to last.
    pub fn kids_first_instances(&self, node: u32, child: u32) -> &[u32]
        requires at { IsChildOf (meant self.now.checked) self.now.tree node child }
        ensures firsts { result.now
            ≡ kid_first_instances (meant self.now.checked) self.now.tree
            (node_at self.now.tree node) child }
    {
        let run = run_of(&self.slots, &self.run_starts, node, child);
        &self.kid_first_instances[run.start as usize..run.end as usize]
    }
}

impl<'a> Tree<'a> {
    /// The value of an input attribute of a node.
    pub fn input(&self, node: u32, attr: u32) -> i64
        requires node { node < size self.now.tree }
        requires attr { Contains (class_inputs (meant self.now.checked)
            (class_at self.now.tree (node_at self.now.tree node))) attr }
        ensures input { input_value (meant self.now.checked)
            (class_at self.now.tree (node_at self.now.tree node)) attr
            (inputs_at self.now.tree (node_at self.now.tree node)) ≡ number result }
    {
        let _nodes = self.node_count();
        self.input_at(node, self.input_place(self.class(node), attr))
    }

    /// The value of the input that stands at this place among those of a node, which stand in the
    /// order of its class.
    #[inline(always)]
    pub fn input_at(&self, node: u32, place: usize) -> i64
        requires node { node < size self.now.tree }
        requires place { place < length (inputs_at self.now.tree (node_at self.now.tree node)) }
        ensures input { number (slice_index_or (inputs_at self.now.tree
            (node_at self.now.tree node)) place (pos 0)) ≡ number result }
    {
        let first = self.first_inputs[node as usize];
        self.inputs[first as usize + place]
    }

    // The place of an input among those of its class.
    fn input_place(&self, class: u32, attr: u32) -> usize
        requires class { class < (meant self.now.checked).class_count }
        requires attr { Contains (class_inputs (meant self.now.checked) class) attr }
        ensures place { result ≡ place_in (class_inputs (meant self.now.checked) class) attr }
    {
        let row = self.classes[class as usize];
        let counts = self.input_counts.as_slice();
        let below = counts[attr as usize];
        let shared = counts[row.shared_first as usize];
        if is_shared(row, attr) {
            return (below - shared) as usize;
        }
        let shared_end = counts[row.shared_first as usize + row.shared_count as usize];
        let own = counts[row.own_first as usize];
        (shared_end - shared) as usize + (below - own) as usize
    }
}

impl<'a> Tree<'a> {
    /// Gives an input of a node another number, in place. It takes no memory.
    pub fn set_input(&mut self, node: u32, attr: u32, value: i64)
        requires node { node < size self.old.tree }
        requires attr { Contains (class_inputs (meant self.old.checked)
            (class_at self.old.tree (node_at self.old.tree node))) attr }
        requires value { IsInput (meant self.old.checked).greatest value }
        ensures tree { self.new ≡ record {
          checked = self.old.checked;
          tree = with_input (meant self.old.checked) self.old.tree node attr value;
        } }
    {
        let start = self.first_inputs[node as usize];
        let place = start as usize + self.input_place(self.class(node), attr);
        self.inputs[place] = value;
    }
}

impl<'a> Tree<'a> {
    /// The tree that has these rows, in preorder, and these inputs, which stand node by node, each
    /// node's in the order of its class.
    pub fn from_nodes(
        alloc: Global,
        checked: &'a Checked,
        rows: Vec<NodeRow>,
        inputs: Vec<i64>,
    ) -> Result<Tree<'a>, AllocError>
        requires nodes { (t : Forest) × AreNodesOf (meant checked.now) t rows.items inputs.items }
        ensures tree { (t : Forest) → AreNodesOf (meant checked.now) t rows.items inputs.items
            → IfOk result (λ r. r ≡ record { checked = checked.now; tree = t }) }
    {
        let classes = class_rows(alloc, checked)?;
        let input_counts = counts_of_inputs(alloc, checked)?;
        let first_instances = first_instances(alloc, checked, &classes, &rows)?;
        let first_inputs = first_inputs(alloc, checked, &classes, &input_counts, &rows)?;
        let slots = child_slots(alloc, checked, &rows)?;
        let sizes = subtree_sizes(alloc, &rows)?;
        let KidRuns { starts, kids } = kid_runs(alloc, &rows, &slots)?;
        let kid_first_instances = firsts_of_kids(alloc, &kids, &first_instances)?;
        let attribute_places = attribute_places(alloc, checked)?;
        Ok(Tree {
            checked,
            classes,
            input_counts,
            rows,
            sizes,
            inputs,
            first_instances,
            first_inputs,
            slots,
            run_starts: starts,
            kids,
            kid_first_instances,
            attribute_places,
        })
    }
}
