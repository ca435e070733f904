//! The instances of a page: attributes of nodes, by number.

ghost use Rattle.std.specs.Prelude.{◌≡◌, ◌<◌, ◌≤◌};
ghost use Rattle.ftl_deps.specs.reads.Meant.{meant};
ghost use Rattle.ftl_model.specs.layout.Table.{instance_count};
ghost use Rattle.ftl_model.specs.layout.Tree.{size};
ghost use Rattle.ftl_plan.specs.cells.NodeCells.{IsCellOf};
ghost use Rattle.maugzeris.specs.pages.Instances.{IsInstanceOn, attribute_of, node_of, number_on};
ghost use Rattle.maugzeris.specs.pages.PageState.{HasAttribute};

use crate::pages::page::Page;
use ftl_tree::Tree;

impl<'a> Page<'a> {
    /// How many instances there are, attributes of nodes. They are numbered from 0, those of node 0
    /// first, each node's in the order of `attributes`, as `relayout` numbers those
    /// that it touches.
    pub fn instance_count(&self) -> u32
        ensures count { result ≡ instance_count (meant self.now.checked) self.now.tree }
        ensures bound { result ≤ 33554432 }
    {
        self.tree().instance_count()
    }

    /// The number of an instance.
    pub fn instance(&self, node: u32, attr: u32) -> u32
        requires node { node < size self.now.tree }
        requires attribute { HasAttribute self.now node attr }
        ensures number { result ≡ number_on self.now node attr }
        ensures within { IsInstanceOn self.now result }
    {
        self.tree().instance(node, attr)
    }

    /// The node of an instance.
    pub fn node_of(&self, instance: u32) -> u32
        requires instance { IsInstanceOn self.now instance }
        ensures node { result ≡ node_of self.now instance }
        ensures known { result < size self.now.tree }
    {
        node_of_cell(self.tree(), instance)
    }

    /// The attribute of an instance.
    pub fn attribute_of(&self, instance: u32) -> u32
        requires instance { IsInstanceOn self.now instance }
        ensures attribute { result ≡ attribute_of self.now instance }
        ensures known { HasAttribute self.now (node_of self.now instance) result }
    {
        let _known = self.tree();
        let node = self.node_of(instance);
        let first = self.tree().first_instance(node);
        self.attributes(node)[(instance - first) as usize]
    }
}

/// The node that has the instance of a number, by halving over where those of the nodes begin.
fn node_of_cell(tree: &Tree<'_>, cell: u32) -> u32
    requires cell { cell < instance_count (meant tree.now.checked) tree.now.tree }
    ensures node { IsCellOf (meant tree.now.checked) tree.now.tree result cell }
{
    let mut low = 0;
    let mut high = tree.node_count();
    while high - low > 1 {
        let middle = low + (high - low) / 2;
        if tree.first_instance(middle) <= cell {
            low = middle;
        } else {
            high = middle;
        }
    }
    low
}
