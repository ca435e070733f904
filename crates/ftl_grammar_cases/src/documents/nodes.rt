//! The nodes of a tree, a line each.

ghost use Rattle.std.specs.Prelude.{◌≡◌, ◌<◌, IfOk};
ghost use Rattle.ftl_model.specs.layout.Tree.{size};
ghost use Rattle.ftl_tree.specs.rows.Rows.{rows_of};

use crate::documents::changed::is_passed;
use ftl_document::{document_nodes, read_written_document};
use ftl_document_printing::print_document;
use ftl_tokens::WideScanned;
use ftl_tree::{NodeRow, Tree, bare_tree};
use std::alloc::{AllocError, Global};
use std::fmt::Write;

/// A line for each node, one with the inputs of all, and the tree's canonical text.
pub(crate) fn write_nodes(
    alloc: Global,
    out: &mut String,
    tree: &Tree,
    scanned: &WideScanned,
) -> Result<(), AllocError> {
    write_all_nodes(out, tree)?;
    write_inputs_of(alloc, out, tree, scanned)?;
    write_text(alloc, out, tree)
}

fn write_all_nodes(out: &mut String, tree: &Tree) -> Result<(), AllocError> {
    for node in 0..tree.node_count() {
        write_node(out, tree, node)?;
    }
    Ok(())
}

/// The inputs of all nodes, as the document gives them.
fn write_inputs_of(
    alloc: Global,
    out: &mut String,
    tree: &Tree,
    scanned: &WideScanned,
) -> Result<(), AllocError> {
    if let Ok(document) = read_written_document(alloc, scanned) {
        if let Ok(nodes) = document_nodes(alloc, tree.checked(), &document) {
            write_inputs(out, nodes.inputs.as_slice())?;
        }
    }
    Ok(())
}

/// The tree's canonical text, and where one pass doesn't take it, a line that says so.
pub(crate) fn write_text(alloc: Global, out: &mut String, tree: &Tree) -> Result<(), AllocError> {
    out.push_str("text ")?;
    let text = print_document(alloc, tree)?;
    out.push_str(text.as_str())?;
    if is_passed(alloc, tree.checked(), text.as_str())? {
        return Ok(());
    }
    out.push_str("not by one pass\n")
}

/// A line for each node of the tree that has the rows of this one and every input 0, and its text.
pub(crate) fn write_bare(alloc: Global, out: &mut String, tree: &Tree) -> Result<(), AllocError> {
    let _nodes = tree.node_count();
    let _instances = tree.instance_count();
    let rows = rows_of_tree(alloc, tree)?;
    let bare = bare_tree(alloc, tree.checked(), rows.as_slice())?;
    write_nodes_and_text(alloc, out, &bare)
}

fn write_nodes_and_text(alloc: Global, out: &mut String, tree: &Tree) -> Result<(), AllocError> {
    write_all_nodes(out, tree)?;
    write_text(alloc, out, tree)
}

fn rows_of_tree(alloc: Global, tree: &Tree) -> Result<Vec<NodeRow>, AllocError>
    ensures rows { IfOk result (λ v. v.items ≡ rows_of tree.now.tree) }
{
    let mut rows = Vec::with_capacity(alloc, tree.node_count() as usize)?;
    for node in 0..tree.node_count() {
        rows.push(tree.row(node))?;
    }
    Ok(rows)
}

/// How many nodes and instances there are.
pub(crate) fn write_counts(out: &mut String, tree: &Tree) -> Result<(), AllocError> {
    write!(
        out,
        "{} nodes, {} instances\n",
        tree.node_count(),
        tree.instance_count()
    )
}

fn write_node(out: &mut String, tree: &Tree, node: u32) -> Result<(), AllocError>
    requires node { node < size tree.now.tree }
{
    let row = tree.row(node);
    let place = row.place;
    write!(
        out,
        "{node} class {} parent {} child {} kid {}\n",
        row.class, row.parent, place.child, place.kid
    )
}

fn write_inputs(out: &mut String, inputs: &[i64]) -> Result<(), AllocError> {
    out.push_str("inputs")?;
    for input in inputs {
        write!(out, " {}", *input)?;
    }
    out.push('\n')
}
