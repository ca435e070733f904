//! The printer of trees, which goes from place to place.

ghost use Rattle.std.specs.Prelude.{◌≡◌, ◌++◌, ◌<◌, ◌≤◌, true, string_bytes, length, IfOk, OnOk};
ghost use Rattle.ftl_deps.specs.reads.Meant.{meant};
ghost use Rattle.ftl_document.specs.reading.ReadTree.{IsTreeRead};
ghost use Rattle.ftl_document_printing.specs.round_trip.ReadBack.{IsReadBack};
ghost use Rattle.ftl_document_printing.specs.trees.Left.{Goes, HasParent, IsAttributeTable};
ghost use Rattle.ftl_document_printing.specs.trees.Left.{IsBehind};
ghost use Rattle.ftl_document_printing.specs.trees.Left.{IsWriterPlace, class_in, entered};
ghost use Rattle.ftl_document_printing.specs.trees.Left.{from_child};
ghost use Rattle.ftl_document_printing.specs.trees.Left.{from_kid_on};
ghost use Rattle.ftl_document_printing.specs.trees.Left.{is_many, left_from, node_of};
ghost use Rattle.ftl_document.specs.faults.WrittenOf.{written_of};
ghost use Rattle.ftl_document_printing.specs.text.DocumentText.{document_text};
ghost use Rattle.ftl_meaning.specs.faults.Numbering.{child_at, class_at};
ghost use Rattle.ftl_model.specs.layout.Tree.{size};
ghost use Rattle.ftl_tokens.specs.scanner.Tokenized.{WideTokenized};
ghost use Rattle.ftl_tree.specs.rows.KidRuns.{IsChildOf};

use crate::round_trip::read_documents;
use crate::text::{write_field, write_mark, write_open};
use crate::trees::inputs::{tree_is_lawful, write_inputs};
use crate::trees::writer_place::WriterPlace;
use ftl_checked::Checked;
use ftl_tokens::{Kind, Name, write_fixed};
use ftl_tree::Tree;
use ftl_visit::class_attributes;
use sqlite_items::Items;
use std::alloc::{AllocError, Global};

/// The canonical text of the tree. A tree that was read is read back from it.
pub fn print_document(alloc: Global, tree: &Tree) -> Result<String, AllocError>
    ensures text { IfOk result (λ text. string_bytes text
        ≡ document_text (written_of tree.now.checked.grammar tree.now.tree)) }
    ensures read_back { (scanned : WideTokenized) → IsTreeRead tree.now.checked scanned tree.now
        → IfOk result (λ text. IsReadBack tree.now.checked tree.now.tree (string_bytes text)) }
{
    is_read_back(tree);
    let attrs = class_attributes(alloc, tree.checked())?;
    let mut out = String::new(alloc);
    write_nodes(&mut out, tree, attrs.as_slice())?;
    Ok(out)
}

/// Says of a tree that it is read back from its canonical text, where it was read.
fn is_read_back(tree: &Tree)
    ensures read_back { (scanned : WideTokenized) → IsTreeRead tree.now.checked scanned tree.now
        → IsReadBack tree.now.checked tree.now.tree
        (document_text (written_of tree.now.checked.grammar tree.now.tree)) }
{
    tree_is_lawful(tree);
    let _readable = tree.checked().grammar();
    read_documents();
}

fn write_nodes(out: &mut String, tree: &Tree, attrs: &[Items<u32>]) -> Result<(), AllocError>
    requires attrs { IsAttributeTable tree.now attrs.now }
    ensures text { OnOk result (string_bytes out.new ≡ string_bytes out.old
        ++ document_text (written_of tree.now.checked.grammar tree.now.tree)) }
{
    tree_is_lawful(tree);
    let mut next = enter(out, tree, attrs, 0)?;
    while let Some(writer_place) = next {
        next = step(out, tree, attrs, writer_place)?;
    }
    Ok(())
}

/// Writes what comes next at a place.
fn step(
    out: &mut String,
    tree: &Tree,
    attrs: &[Items<u32>],
    writer_place: WriterPlace,
) -> Result<Option<WriterPlace>, AllocError>
    requires attrs { IsAttributeTable tree.now attrs.now }
    requires writer_place { IsWriterPlace tree.now writer_place }
    ensures goes { IfOk result (Goes tree.now (string_bytes out.old) (string_bytes out.new)
        (left_from tree.now writer_place)) }
{
    match writer_place {
        WriterPlace::Field { node, child } => {
            if child < child_count(tree, node) {
                open_field(out, tree, attrs, node, child)
            } else {
                close_node(out, tree, node, child)
            }
        }
        WriterPlace::Kid { node, child, kid } => next_kid(out, tree, attrs, node, child, kid),
    }
}

/// Writes the field of a child, as far as its first node.
fn open_field(
    out: &mut String,
    tree: &Tree,
    attrs: &[Items<u32>],
    node: u32,
    child: u32,
) -> Result<Option<WriterPlace>, AllocError>
    requires attrs { IsAttributeTable tree.now attrs.now }
    requires at { IsChildOf (meant tree.now.checked) tree.now.tree node child }
    ensures goes { IfOk result (Goes tree.now (string_bytes out.old) (string_bytes out.new)
        (from_child tree.now (node_of tree.now node) child)) }
{
    tree_is_lawful(tree);
    let class = tree.row(node).class;
    write_field(out, child_name(tree.checked(), class, child))?;
    if tree.checked().child(class, child).many {
        write_mark(out, Kind::LeftBracket)?;
        Ok(Some(WriterPlace::Kid {
            node,
            child,
            kid: 0,
        }))
    } else {
        enter(out, tree, attrs, tree.kid(node, child, 0))
    }
}

/// Writes the next node of a list, or the end of the list.
fn next_kid(
    out: &mut String,
    tree: &Tree,
    attrs: &[Items<u32>],
    node: u32,
    child: u32,
    kid: u32,
) -> Result<Option<WriterPlace>, AllocError>
    requires attrs { IsAttributeTable tree.now attrs.now }
    requires at { IsChildOf (meant tree.now.checked) tree.now.tree node child }
    requires many { is_many tree.now (node_of tree.now node) child ≡ true }
    ensures goes { IfOk result (Goes tree.now (string_bytes out.old) (string_bytes out.new)
        (from_kid_on tree.now (node_of tree.now node) child kid)) }
{
    tree_is_lawful(tree);
    if kid < tree.kid_count(node, child) {
        enter(out, tree, attrs, tree.kid(node, child, kid))
    } else {
        child_count(tree, node);
        write_mark(out, Kind::RightBracket)?;
        Ok(Some(WriterPlace::Field {
            node,
            child: child + 1,
        }))
    }
}

/// Writes a node as far as its children.
fn enter(
    out: &mut String,
    tree: &Tree,
    attrs: &[Items<u32>],
    node: u32,
) -> Result<Option<WriterPlace>, AllocError>
    requires attrs { IsAttributeTable tree.now attrs.now }
    requires node { node < size tree.now.tree }
    ensures goes { IfOk result (Goes tree.now (string_bytes out.old) (string_bytes out.new)
        (entered tree.now (node_of tree.now node))) }
{
    tree_is_lawful(tree);
    write_open(out, tree.checked().class_name(tree.row(node).class))?;
    write_inputs(out, tree, attrs, node)?;
    Ok(Some(WriterPlace::Field { node, child: 0 }))
}

/// Writes the end of a node, none of whose children is left.
fn close_node(
    out: &mut String,
    tree: &Tree,
    node: u32,
    child: u32,
) -> Result<Option<WriterPlace>, AllocError>
    requires node { node < size tree.now.tree }
    requires past { length (class_at tree.now.checked.grammar
        (class_in tree.now (node_of tree.now node))).children ≤ child }
    ensures goes { IfOk result (Goes tree.now (string_bytes out.old) (string_bytes out.new)
        (from_child tree.now (node_of tree.now node) child)) }
{
    tree_is_lawful(tree);
    match tree.parent(node) {
        None => {
            write_fixed(out, Kind::RightBrace, "\n")?;
            Ok(None)
        }
        Some(parent) => {
            write_mark(out, Kind::RightBrace)?;
            Ok(Some(place_behind(tree, node, parent)))
        }
    }
}

/// How many children the class of a node has.
fn child_count(tree: &Tree, node: u32) -> u32
    requires node { node < size tree.now.tree }
    ensures count { result ≡ length (class_at tree.now.checked.grammar
        (class_in tree.now (node_of tree.now node))).children }
{
    tree_is_lawful(tree);
    tree.checked().child_count(tree.row(node).class)
}

fn child_name(checked: &Checked, class: u32, child: u32) -> &Name
    requires within { class < length checked.now.grammar.classes }
    requires child { child < length (class_at checked.now.grammar class).children }
    ensures name { result.now ≡ (child_at checked.now.grammar class child).name }
{
    &checked.grammar().classes.as_slice()[class as usize]
        .children
        .as_slice()[child as usize]
        .name
}

/// Where the writer stands behind a node that is a kid of this parent.
fn place_behind(tree: &Tree, node: u32, parent: u32) -> WriterPlace
    requires node { node < size tree.now.tree }
    requires parent { HasParent tree.now node parent }
    ensures left { IsBehind tree.now (node_of tree.now node) (left_from tree.now result) }
    ensures writer_place { IsWriterPlace tree.now result }
{
    tree_is_lawful(tree);
    let place = tree.row(node).place;
    let class = tree.row(parent).class;
    if tree.checked().child(class, place.child).many {
        tree.kid_count(parent, place.child);
        WriterPlace::Kid {
            node: parent,
            child: place.child,
            kid: place.kid + 1,
        }
    } else {
        child_count(tree, parent);
        WriterPlace::Field {
            node: parent,
            child: place.child + 1,
        }
    }
}
