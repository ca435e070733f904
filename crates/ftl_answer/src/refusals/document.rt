//! Faults of documents.

ghost use Rattle.std.specs.Prelude.{◌≡◌, ◌++◌, OnOk, codes};
ghost use Rattle.ftl_meaning.specs.faults.Numbering.{class_at, interface_at};
ghost use Rattle.ftl_answer.specs.refusals.DocumentLines.{at_field, at_node, document_line};

use crate::refusals::names::class_name;
use crate::refusals::pieces::{
    field_then, number_and_names, number_then, numbered, numbered_large,
};
use crate::refusals::text::at_byte;
use ftl_checked::Checked;
use ftl_document::DocFault;
use ftl_page::Section;
use std::alloc::AllocError;

/// Adds the line of the first fault of a document of this grammar.
pub fn write_document_fault(
    out: &mut Vec<u8>,
    checked: &Checked,
    fault: &DocFault,
) -> Result<(), AllocError>
    ensures line { OnOk result (out.new.items
        ≡ out.old.items ++ document_line checked.now.grammar fault.now) }
{
    match fault {
        DocFault::TooDeep { at } => at_byte(out, Section::Document, "too deep", *at),
        DocFault::TooManyNodes { count } => {
            numbered(out, "refused document: too many nodes: ", *count)
        }
        DocFault::Syntax { at } => at_byte(out, Section::Document, "syntax", *at),
        DocFault::UnknownClass { node, name } => {
            at_node(out, *node, " unknown class ", name.text())
        }
        DocFault::WrongInterface {
            node,
            class,
            wanted,
        } => { wrong_interface(out, checked, *node, *class, *wanted) }
        DocFault::UnknownField { node, name } => {
            at_node(out, *node, " unknown field ", name.text())
        }
        DocFault::FieldTwice { node, name } => at_field(out, *node, name.text(), " twice"),
        DocFault::FieldForm { node, name } => {
            at_field(out, *node, name.text(), " has a wrong form")
        }
        DocFault::FieldOrder { node, name } => at_field(out, *node, name.text(), " out of order"),
        DocFault::FieldMissing { node, name } => at_field(out, *node, name.text(), " missing"),
        DocFault::TooManyInstances { count } => {
            numbered_large(out, "refused document: too many instances: ", *count)
        }
        DocFault::OutOfMemory => Ok(()),
    }
}

/// Adds a node, what is wrong with it and a name.
fn at_node(out: &mut Vec<u8>, node: u32, what: &str, name: &str) -> Result<(), AllocError>
    ensures line { OnOk result (out.new.items
        ≡ out.old.items ++ at_node node (what.now ++ name.now)) }
{
    number_then(out, "refused document: node ", node, what, name)
}

/// Adds a field of a node, and what is wrong with it.
fn at_field(out: &mut Vec<u8>, node: u32, name: &str, what: &str) -> Result<(), AllocError>
    ensures line { OnOk result (out.new.items
        ≡ out.old.items ++ at_field node name.now what.now) }
{
    field_then(
        out,
        ("refused document: node ", " field "),
        node,
        name,
        what,
    )
}

fn wrong_interface(
    out: &mut Vec<u8>,
    checked: &Checked,
    node: u32,
    class: u32,
    wanted: u32,
) -> Result<(), AllocError>
    ensures line { OnOk result (out.new.items ≡ out.old.items ++ at_node node (codes " class "
        ++ ((class_at checked.now.grammar class).name ++ (codes " is not of "
        ++ (interface_at checked.now.grammar wanted).name)))) }
{
    let names = (
        " class ",
        class_name(checked, class),
        " is not of ",
        interface_name(checked, wanted),
    );
    number_and_names(out, "refused document: node ", node, names)
}

fn interface_name(checked: &Checked, interface: u32) -> &str
    ensures name { result.now ≡ (interface_at checked.now.grammar interface).name }
{
    match checked
        .grammar()
        .interfaces
        .as_slice()
        .get(interface as usize)
    {
        Some(interface) => interface.name.text(),
        None => "",
    }
}
