//! Counts of what instances read.
ghost use Rattle.std.specs.Prelude.{◌≡◌, ◌<◌, ◌≤◌, None, Some, length, slice_index_or, IfSome};
ghost use Rattle.std.specs.Option.{option_map};
ghost use Rattle.ftl_items.specs.stage_items.Limits.{read_count};
ghost use Rattle.ftl_model.specs.layout.AttributeGrammar.{for_self};
ghost use Rattle.ftl_model.specs.layout.Path.{node_at, number_of, parent_of};
ghost use Rattle.ftl_model.specs.layout.Tree.{size};
ghost use Rattle.ftl_order.specs.orders.Lawful.{OfClass, class_of_rule};
ghost use Rattle.ftl_deps.specs.reads.Meant.{meant};
ghost use Rattle.ftl_deps.specs.parts.RuleParts.{parts_named};
ghost use Rattle.ftl_visit.specs.step_reads.StepReads.{reads_here};
ghost use Rattle.ftl_visit.specs.visits.Visits.{rule_number};
ghost use Rattle.ftl_step_value.specs.limits.reads.ReadTables.{AreTables, IsSound, class_in};
ghost use Rattle.ftl_step_value.specs.limits.reads.ReadTables.{instance_in};
ghost use Rattle.ftl_step_value.specs.limits.reads.ReadTables.{rule_at};

use crate::limits::reads::tables::ReadTables;
use ftl_tree::Tree;
use ftl_visit::read_count;

/// How much the equation of a node's attribute reads; that of an input reads nothing.
pub fn instance_reads(tables: &ReadTables, tree: &Tree<'_>, node: u32, attr: u32) -> u64
    requires sound { IsSound (meant tree.now.checked) }
    requires tables { AreTables (meant tree.now.checked) tables.now }
    requires node { node < size tree.now.tree }
    requires attr { OfClass (meant tree.now.checked) (class_in tree.now node) attr }
    ensures count { result
        ≡ read_count (meant tree.now.checked) tree.now.tree (instance_in tree.now node attr) }
    ensures bound { result ≤ 268435712 }
{
    let _nodes = tree.node_count();
    match own_rule(tables, tree, node, attr) {
        Some(rule) => rule_reads(tables, tree, node, rule, 0),
        None => inherited_reads(tables, tree, node, attr),
    }
}

/// How much the equation of an attribute reads that the node's own class has no rule for.
fn inherited_reads(tables: &ReadTables, tree: &Tree<'_>, node: u32, attr: u32) -> u64
    requires sound { IsSound (meant tree.now.checked) }
    requires tables { AreTables (meant tree.now.checked) tables.now }
    requires node { node < size tree.now.tree }
    requires attr { OfClass (meant tree.now.checked) (class_in tree.now node) attr }
    requires none { rule_number (meant tree.now.checked) (class_in tree.now node) None attr
        ≡ None }
    ensures count { result
        ≡ read_count (meant tree.now.checked) tree.now.tree (instance_in tree.now node attr) }
    ensures bound { result ≤ 268435712 }
{
    let _nodes = tree.node_count();
    let Some(parent) = tree.parent(node) else {
        return 0;
    };
    let place = tree.place(node);
    match kid_rule(tables, tree, parent, place.child, attr) {
        Some(rule) => rule_reads(tables, tree, parent, rule, place.kid),
        None => 0,
    }
}

/// The number of the rule of a node's class for an attribute of the node itself.
fn own_rule(tables: &ReadTables, tree: &Tree<'_>, node: u32, attr: u32) -> Option<u32>
    requires sound { IsSound (meant tree.now.checked) }
    requires tables { AreTables (meant tree.now.checked) tables.now }
    requires node { node < size tree.now.tree }
    requires attr { OfClass (meant tree.now.checked) (class_in tree.now node) attr }
    ensures rule { result
        ≡ rule_number (meant tree.now.checked) (class_in tree.now node) None attr }
{
    let _nodes = tree.node_count();
    let class = tree.class(node);
    let rows = tables.rules.own.as_slice();
    let row = rows[class as usize].as_slice();
    row[attr as usize]
}

/// The number of the rule of a node's class for an attribute of the kids in a child.
fn kid_rule(tables: &ReadTables, tree: &Tree<'_>, node: u32, child: u32, attr: u32) -> Option<u32>
    requires sound { IsSound (meant tree.now.checked) }
    requires tables { AreTables (meant tree.now.checked) tables.now }
    requires node { node < size tree.now.tree }
    requires child { child < (meant tree.now.checked).child_count (class_in tree.now node) }
    requires attr { attr < (meant tree.now.checked).attribute_count }
    ensures rule { result
        ≡ rule_number (meant tree.now.checked) (class_in tree.now node) (Some child) attr }
{
    let _nodes = tree.node_count();
    let class = tree.class(node);
    let tables = tables.rules.kids.as_slice();
    let rows = tables[class as usize].as_slice();
    let row = rows[child as usize].as_slice();
    row[attr as usize]
}

/// How much a rule of a node's class reads there for the kid of this number.
fn rule_reads(tables: &ReadTables, tree: &Tree<'_>, node: u32, rule: u32, number: u32) -> u64
    requires sound { IsSound (meant tree.now.checked) }
    requires tables { AreTables (meant tree.now.checked) tables.now }
    requires node { node < size tree.now.tree }
    requires rule { rule < length (meant tree.now.checked).rules }
    requires class { class_of_rule (rule_at (meant tree.now.checked) rule)
        ≡ class_in tree.now node }
    ensures count { result ≡ reads_here tree.now node
        (parts_named (meant tree.now.checked) (rule_at (meant tree.now.checked) rule)) number }
    ensures bound { result ≤ 268435712 }
{
    let rows = tables.parts.as_slice();
    read_count(tree, node, &rows[rule as usize], number)
}
