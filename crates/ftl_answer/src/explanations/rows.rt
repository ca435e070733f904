//! The node and the attribute of each instance of a tree.

ghost use Rattle.std.specs.Prelude.{◌≡◌, ◌++◌, ◌<◌, IfOk, OnOk};
ghost use Rattle.ftl_deps.specs.reads.Meant.{meant};
ghost use Rattle.ftl_model.specs.layout.AttributeGrammar.{attributes_of};
ghost use Rattle.ftl_model.specs.layout.Tree.{size};
ghost use Rattle.ftl_model.specs.layout.TreeOf.{IsTreeOf};
ghost use Rattle.ftl_meaning.specs.lawful.Faultless.{IsFaultless};
ghost use Rattle.ftl_visit.specs.rule_tables.RuleTables.{by_number};
ghost use Rattle.ftl_answer.specs.explanations.Rows.{attributes_at, instance_rows, node_rows};

use ftl_tree::Tree;
use ftl_visit::class_attributes;
use sqlite_items::Items;
use std::alloc::{AllocError, Global};

/// The number of an instance's node, and its attribute.
#[derive(Clone, Copy)]
pub struct InstanceRow {
    pub node: u32,
    pub attr: u32,
}

/// The rows of all instances of a tree, by number.
pub(crate) fn instance_rows(alloc: Global, tree: &Tree) -> Result<Vec<InstanceRow>, AllocError>
    ensures rows { IfOk result (λ v. v.items ≡ instance_rows tree.now) }
{
    let attrs = class_attributes(alloc, tree.checked())?;
    let mut rows = Vec::new(alloc);
    for node in 0..tree.node_count() {
        add_node(&mut rows, tree, attrs.as_slice(), node)?;
    }
    Ok(rows)
}

/// Adds the rows of a node.
fn add_node(
    rows: &mut Vec<InstanceRow>,
    tree: &Tree,
    attrs: &[Items<u32>],
    node: u32,
) -> Result<(), AllocError>
    requires attrs { attrs.now ≡ by_number (attributes_of (meant tree.now.checked))
        (meant tree.now.checked).class_count }
    requires node { node < size tree.now.tree }
    ensures added { OnOk result (rows.new.items
        ≡ rows.old.items ++ node_rows node (attributes_at tree.now node)) }
{
    tree_is_lawful(tree);
    add_attributes(rows, node, attrs[tree.class(node) as usize].as_slice())
}

/// Says of a tree that it is one of its grammar, which has no fault.
pub(crate) fn tree_is_lawful(tree: &Tree)
    ensures is_tree { IsTreeOf (meant tree.now.checked) tree.now.tree }
    ensures faultless { IsFaultless tree.now.checked.grammar }
{
    tree.node_count();
    tree.checked().grammar();
}

/// Adds the rows of some attributes of a node.
fn add_attributes(rows: &mut Vec<InstanceRow>, node: u32, attrs: &[u32]) -> Result<(), AllocError>
    ensures added { OnOk result (rows.new.items ≡ rows.old.items ++ node_rows node attrs.now) }
{
    for attr in attrs {
        rows.push(InstanceRow { node, attr: *attr })?;
    }
    Ok(())
}
