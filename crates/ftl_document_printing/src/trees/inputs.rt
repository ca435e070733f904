//! The inputs of a node as fields.

ghost use Rattle.std.specs.Prelude.{◌≡◌, ◌++◌, ◌<◌, string_bytes, Contains, OnOk};
ghost use Rattle.ftl_deps.specs.reads.Meant.{meant};
ghost use Rattle.ftl_document_printing.specs.trees.Left.{IsAttributeTable, attribute_written};
ghost use Rattle.ftl_document_printing.specs.trees.Left.{class_in};
ghost use Rattle.ftl_document_printing.specs.trees.Left.{inputs_written, node_of};
ghost use Rattle.ftl_meaning.specs.grammars.GrammarOf.{sort_of};
ghost use Rattle.ftl_model.specs.layout.AttributeGrammar.{attributes_of, is_input};
ghost use Rattle.ftl_model.specs.layout.Tree.{size};
ghost use Rattle.ftl_model.specs.layout.TreeOf.{IsTreeOf};
ghost use Rattle.ftl_meaning.specs.lawful.Faultless.{IsFaultless};
ghost use Rattle.ftl_tokens.specs.writing.Written.{text_of};

use crate::text::{write_field, write_integer};
use ftl_grammar::AttrKind;
use ftl_tree::Tree;
use sqlite_items::Items;
use std::alloc::AllocError;

/// Writes the inputs of a node.
pub(crate) fn write_inputs(
    out: &mut String,
    tree: &Tree,
    attrs: &[Items<u32>],
    node: u32,
) -> Result<(), AllocError>
    requires attrs { IsAttributeTable tree.now attrs.now }
    requires node { node < size tree.now.tree }
    ensures text { OnOk result (string_bytes out.new ≡ string_bytes out.old
        ++ text_of (inputs_written tree.now (node_of tree.now node))) }
{
    tree_is_lawful(tree);
    write_attributes(
        out,
        tree,
        attrs[tree.row(node).class as usize].as_slice(),
        node,
    )
}

/// Says of a tree that it is one of its grammar, which has no fault.
pub(crate) fn tree_is_lawful(tree: &Tree)
    ensures is_tree { IsTreeOf (meant tree.now.checked) tree.now.tree }
    ensures faultless { IsFaultless tree.now.checked.grammar }
{
    tree.node_count();
    tree.checked().grammar();
}

/// Writes the fields of the inputs among the attributes of a node.
fn write_attributes(
    out: &mut String,
    tree: &Tree,
    attrs: &[u32],
    node: u32,
) -> Result<(), AllocError>
    requires node { node < size tree.now.tree }
    requires attrs { attrs.now ≡ attributes_of (meant tree.now.checked)
        (class_in tree.now (node_of tree.now node)) }
    ensures text { OnOk result (string_bytes out.new ≡ string_bytes out.old
        ++ text_of (inputs_written tree.now (node_of tree.now node))) }
{
    for attr in attrs {
        write_attribute(out, tree, node, *attr)?;
    }
    Ok(())
}

/// Writes the field of an attribute that is an input.
fn write_attribute(out: &mut String, tree: &Tree, node: u32, attr: u32) -> Result<(), AllocError>
    requires node { node < size tree.now.tree }
    requires attr { Contains (attributes_of (meant tree.now.checked)
        (class_in tree.now (node_of tree.now node))) attr }
    ensures text { OnOk result (string_bytes out.new ≡ string_bytes out.old
        ++ text_of (attribute_written tree.now (node_of tree.now node) attr)) }
{
    // The attribute is there, as the grammar is lawful.
    tree_is_lawful(tree);
    if is_input_kind(tree.checked().attr(attr).kind) {
        write_field(out, tree.checked().attr_name(attr))?;
        write_integer(out, tree.input(node, attr))
    } else {
        Ok(())
    }
}

fn is_input_kind(kind: AttrKind) -> bool
    ensures input { result ≡ is_input (sort_of kind) }
{
    match kind {
        AttrKind::Input => true,
        _ => false,
    }
}
