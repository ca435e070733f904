//! The first instances of nodes and of their kids.

ghost use Rattle.std.specs.Prelude.{◌<◌};
ghost use Rattle.ftl_deps.specs.reads.Meant.{meant};
ghost use Rattle.ftl_model.specs.layout.Tree.{size};
ghost use Rattle.ftl_tree.specs.rows.KidRuns.{IsChildOf};

use ftl_tree::Tree;
use std::alloc::AllocError;
use std::fmt::Write;

/// A line for each node.
pub(crate) fn write_instances(out: &mut String, tree: &Tree) -> Result<(), AllocError> {
    for node in 0..tree.node_count() {
        write_node(out, tree, node)?;
    }
    Ok(())
}

/// The node with its first instance, and each of its children.
fn write_node(out: &mut String, tree: &Tree, node: u32) -> Result<(), AllocError>
    requires node { node < size tree.now.tree }
{
    write!(out, "{node} first {}", tree.first_instance(node))?;
    let class = tree.row(node).class;
    for child in 0..tree.checked().child_count(class) {
        write_kids(out, tree, node, child)?;
    }
    out.push('\n')
}

/// Each kid of a child with its first instance.
fn write_kids(out: &mut String, tree: &Tree, node: u32, child: u32) -> Result<(), AllocError>
    requires at { IsChildOf (meant tree.now.checked) tree.now.tree node child }
{
    write!(out, " child {child}")?;
    let firsts = tree.kids_first_instances(node, child);
    for (kid, first) in tree.kids(node, child).iter().zip(firsts.iter()) {
        write!(out, " {}:{}", *kid, *first)?;
    }
    Ok(())
}
