//! Faults of documents.

use crate::outline::{Outline, Part, Role, child_of, field_token, node_token, node_word};
use crate::reasons::case::Case;
use crate::reasons::grammar::{with_classes, with_names};
use crate::reasons::lines::{between, number_named, told_by};
use crate::reasons::names::{Sort, names_in_role, names_of, names_of_class, other_case};
use crate::reasons::reason::Reason;
use crate::tokens::word_at;
use ftl_page::Section;
use ftl_tokens::TokenizedText;
use std::alloc::{AllocError, Global};

/// A document's tokens, and the grammar whose document it is to be.
#[derive(Drop)]
struct Text<'l> {
    scanned: &'l TokenizedText,
    outline: Outline<'l>,
}

/// A node's field.
#[derive(Clone, Copy)]
struct FieldName<'l> {
    node: usize,
    name: &'l str,
}

/// Why a document is refused that follows the syntax.
pub fn document_reason<'l>(
    alloc: Global,
    case: &Case<'l>,
    line: &'l str,
) -> Result<Reason<'l>, AllocError> {
    let told = told_by(line);
    let (Some(outline), Some(scanned)) = (case.outline(), case.tokens(Section::Document)) else {
        return Ok(Reason::silent(alloc));
    };
    let text = Text { scanned, outline };
    if let Some(count) = told.strip_prefix("too many nodes: ") {
        let last = number_named(count).unwrap_or(0).saturating_sub(1);
        return Ok(at_node(alloc, &text, last, node_word(scanned, last)));
    }
    let Some(rest) = told.strip_prefix("node ") else {
        return Ok(Reason::silent(alloc));
    };
    let Some((number, rest)) = rest.split_once(' ') else {
        return Ok(Reason::silent(alloc));
    };
    let node = number_named(number).unwrap_or(0);
    node_reason(alloc, case, &text, node, rest)
}

/// A node, which is of a class of this name.
fn at_node<'l>(alloc: Global, text: &Text<'l>, node: usize, class: &'l str) -> Reason<'l> {
    Reason::at(
        alloc,
        Section::Document,
        node_token(text.scanned, node),
        class,
    )
}

/// A field of a node, of those of this name that behind the first `before`.
fn at_field<'l>(alloc: Global, text: &Text<'l>, field: FieldName<'l>, before: usize) -> Reason<'l> {
    let token = field_token(text.scanned, field.node, field.name, before);
    Reason::at(alloc, Section::Document, token, field.name)
}

fn node_reason<'l>(
    alloc: Global,
    case: &Case<'l>,
    text: &Text<'l>,
    node: usize,
    rest: &'l str,
) -> Result<Reason<'l>, AllocError> {
    if let Some(class) = between(rest, "unknown class ", "") {
        return unknown_class(alloc, text, node, class);
    }
    if let Some(words) = between(rest, "class ", "") {
        return wrong_class(alloc, text, node, words);
    }
    if let Some(name) = between(rest, "unknown field ", "") {
        return unknown_field(alloc, text, FieldName { node, name });
    }
    match rest.strip_prefix("field ") {
        Some(words) => field_reason(alloc, case, text, node, words),
        None => Ok(Reason::silent(alloc)),
    }
}

fn field_reason<'l>(
    alloc: Global,
    case: &Case<'l>,
    text: &Text<'l>,
    node: usize,
    words: &'l str,
) -> Result<Reason<'l>, AllocError> {
    let Some((name, what)) = words.split_once(' ') else {
        return Ok(Reason::silent(alloc));
    };
    let field = FieldName { node, name };
    match what {
        "twice" => field_twice(alloc, case, text, field),
        "missing" => field_missing(alloc, text, field),
        "out of order" => {
            let reason = at_field(alloc, text, field, 0);
            let class = node_word(text.scanned, node);
            let names = names_of(alloc, &text.outline, class, Sort::Children)?;
            with_names(
                reason,
                "hint: children stand in the order of their declaration: ",
                names.as_str(),
            )
        }
        _ => at_field(alloc, text, field, 0).with(form_note(text, field)),
    }
}

fn unknown_class<'l>(
    alloc: Global,
    text: &Text<'l>,
    node: usize,
    class: &'l str,
) -> Result<Reason<'l>, AllocError> {
    let reason = at_node(alloc, text, node, class);
    let outline = &text.outline;
    if let Some(other) = other_case(outline, Role::Class, class) {
        return with_names(reason, "hint: capital and small letters differ: ", other);
    }
    if outline.declared(Role::Interface, class).is_some() {
        return with_classes(alloc, reason, outline, class);
    }
    let names = names_in_role(alloc, outline, Role::Class)?;
    with_names(reason, "the classes are ", names.as_str())
}

/// A class that is not of the interface that is wanted there, by the words `Row is not of Box`.
fn wrong_class<'l>(
    alloc: Global,
    text: &Text<'l>,
    node: usize,
    words: &'l str,
) -> Result<Reason<'l>, AllocError> {
    let Some((class, interface)) = words.split_once(" is not of ") else {
        return Ok(Reason::silent(alloc));
    };
    let reason = at_node(alloc, text, node, class);
    with_classes(alloc, reason, &text.outline, interface)
}

/// What a class has of this name, as a child or an attribute.
fn declared<'l>(text: &Text<'l>, field: FieldName<'_>) -> Option<Part> {
    let class = node_word(text.scanned, field.node);
    match text.outline.part(Role::Child, class, field.name) {
        Some(part) => Some(part),
        None => text.outline.attribute_of_class(class, field.name),
    }
}

fn unknown_field<'l>(
    alloc: Global,
    text: &Text<'l>,
    field: FieldName<'l>,
) -> Result<Reason<'l>, AllocError> {
    let reason = at_field(alloc, text, field, 0);
    if declared(text, field).is_some() {
        return reason.with(
            "hint: this is computed by a rule; a document gives inputs and children alone",
        );
    }
    let class = node_word(text.scanned, field.node);
    let inputs = names_of_class(alloc, &text.outline, class, Sort::Inputs)?;
    let told = with_names(reason, "the inputs of this class are ", inputs.as_str())?;
    let children = names_of(alloc, &text.outline, class, Sort::Children)?;
    with_names(told, "its children are ", children.as_str())
}

fn field_twice<'l>(
    alloc: Global,
    case: &Case<'l>,
    text: &Text<'l>,
    field: FieldName<'l>,
) -> Result<Reason<'l>, AllocError> {
    let Reason { range, notes } = at_field(alloc, text, field, 1);
    let mut notes = notes;
    if let Some(first) = field_token(text.scanned, field.node, field.name, 0) {
        notes.push_str("the first one stands")?;
        case.push_at(&mut notes, Section::Document, first)?;
        notes.push_str("\n")?;
    }
    Ok(Reason { range, notes })
}

fn field_missing<'l>(
    alloc: Global,
    text: &Text<'l>,
    field: FieldName<'l>,
) -> Result<Reason<'l>, AllocError> {
    let token = node_token(text.scanned, field.node);
    let class = match token {
        Some(k) => word_at(text.scanned, k),
        None => "",
    };
    let reason = Reason::at(alloc, Section::Document, token, class);
    reason.with(match child_of(&text.outline, class, field.name) {
        Some(child) if child.list => {
            "hint: each node gives its list of children, if need be an empty one: `kids = [ ]`"
        }
        Some(_) => "hint: each node gives each of its children: `body = Label { .. }`",
        None => "hint: each node gives each of its inputs, which have no defaults: `w = 0`",
    })
}

/// How the field is to be written.
fn form_note(text: &Text<'_>, field: FieldName<'_>) -> &'static str {
    let class = node_word(text.scanned, field.node);
    match child_of(&text.outline, class, field.name) {
        Some(child) if child.list => "expected a list of nodes, as `kids = [ Label { .. } ]`",
        Some(_) => "expected one node, as `body = Label { .. }`",
        None => "expected a number, as `w = 20`",
    }
}
