//! The step that computes an attribute of a node.
ghost use Rattle.std.specs.Prelude.{◌≡◌, ◌≢◌, ◌<◌, None, Some};
ghost use Rattle.ftl_deps.specs.reads.Meant.{meant};
ghost use Rattle.ftl_step_value.specs.limits.reads.ReadTables.{AreTables, IsSound, class_in};
ghost use Rattle.ftl_model.specs.layout.AttributeGrammar.{input};
ghost use Rattle.ftl_model.specs.layout.Tree.{size};
ghost use Rattle.ftl_order.specs.orders.Lawful.{OfClass};
ghost use Rattle.ftl_order.specs.steps.Steps.{IsStepOf, target_of};
ghost use Rattle.ftl_visit.specs.visits.Visits.{rule_number};
ghost use Rattle.ftl_demand.specs.demand.Sites.{IsAttr, IsSite, instance_at};

use crate::demand::waiting::{NodeAttr, Site};
use ftl_order::Step;
use ftl_step_value::limits::ReadTables;
use ftl_tree::Tree;

/// The step that computes an attribute that is no input.
#[inline(always)]
pub(crate) fn writer(site: &Site<'_>, wanted: NodeAttr) -> Step
    requires site { IsSite site.now }
    requires known { IsAttr site.now.tree.now wanted }
    requires computed { (meant site.now.tree.now.checked).sort wanted.attr ≢ input }
    ensures step { IsStepOf (meant site.now.tree.now.checked) site.now.tree.now.tree result }
    ensures target { target_of (meant site.now.tree.now.checked) site.now.tree.now.tree result
        ≡ instance_at site.now.tree.now wanted }
{
    let tree = site.tree;
    let _nodes = tree.node_count();
    let node = wanted.node;
    match own_rule(site.tables, tree, node, wanted.attr) {
        Some(rule) => Step { node, rule, kid: 0 },
        None => writer_above(site, wanted),
    }
}

/// The same of an attribute that the node's own class has no rule for.
fn writer_above(site: &Site<'_>, wanted: NodeAttr) -> Step
    requires site { IsSite site.now }
    requires known { IsAttr site.now.tree.now wanted }
    requires computed { (meant site.now.tree.now.checked).sort wanted.attr ≢ input }
    requires none { rule_number (meant site.now.tree.now.checked)
        (class_in site.now.tree.now wanted.node) None wanted.attr ≡ None }
    ensures step { IsStepOf (meant site.now.tree.now.checked) site.now.tree.now.tree result }
    ensures target { target_of (meant site.now.tree.now.checked) site.now.tree.now.tree result
        ≡ instance_at site.now.tree.now wanted }
{
    let tree = site.tree;
    let _nodes = tree.node_count();
    let parent = tree.parent(wanted.node).unwrap();
    let place = tree.place(wanted.node);
    let rule = kid_rule(site.tables, tree, parent, place.child, wanted.attr).unwrap();
    Step {
        node: parent,
        rule,
        kid: place.kid,
    }
}

/// The number of the rule of a node's class for an attribute of the node itself.
#[inline(always)]
pub(crate) fn own_rule(tables: &ReadTables, tree: &Tree<'_>, node: u32, attr: u32) -> Option<u32>
    requires sound { IsSound (meant tree.now.checked) }
    requires tables { AreTables (meant tree.now.checked) tables.now }
    requires node { node < size tree.now.tree }
    requires attr { OfClass (meant tree.now.checked) (class_in tree.now node) attr }
    ensures rule { result
        ≡ rule_number (meant tree.now.checked) (class_in tree.now node) None attr }
{
    let _nodes = tree.node_count();
    let class = tree.class(node);
    let rows = tables.rules.own.as_slice();
    let row = rows[class as usize].as_slice();
    row[attr as usize]
}

/// The number of the rule of a node's class for an attribute of the kids in a child.
fn kid_rule(tables: &ReadTables, tree: &Tree<'_>, node: u32, child: u32, attr: u32) -> Option<u32>
    requires sound { IsSound (meant tree.now.checked) }
    requires tables { AreTables (meant tree.now.checked) tables.now }
    requires node { node < size tree.now.tree }
    requires child { child < (meant tree.now.checked).child_count (class_in tree.now node) }
    requires attr { attr < (meant tree.now.checked).attribute_count }
    ensures rule { result
        ≡ rule_number (meant tree.now.checked) (class_in tree.now node) (Some child) attr }
{
    let _nodes = tree.node_count();
    let class = tree.class(node);
    let tables = tables.rules.kids.as_slice();
    let rows = tables[class as usize].as_slice();
    let row = rows[child as usize].as_slice();
    row[attr as usize]
}
