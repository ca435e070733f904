//! Lists of names, for notes.

use crate::outline::{Outline, Role, is_attribute};
use std::alloc::{AllocError, Global};

/// Which names are listed.
#[derive(Clone, Copy)]
pub enum Sort {
    /// Attributes of every kind.
    Attributes,
    /// Attributes that are computed.
    Computed,
    /// Inputs.
    Inputs,
    /// Children.
    Children,
    /// Those that a parent gives.
    Inherited,
    /// Those that a node computes.
    Own,
}

fn is_of_sort(role: Role, sort: Sort) -> bool {
    match sort {
        Sort::Attributes => is_attribute(role),
        Sort::Computed => is_attribute(role) && role != Role::Input,
        Sort::Inputs => role == Role::Input,
        Sort::Children => role == Role::Child,
        Sort::Inherited => role == Role::Inherited,
        Sort::Own => role == Role::Synthesized || role == Role::Local,
    }
}

/// Appends a name, in its marks and behind a comma where others stand before it.
pub fn push_name(out: &mut String, name: &str) -> Result<(), AllocError> {
    out.push_str(if out.is_empty() { "`" } else { ", `" })?;
    out.push_str(name)?;
    out.push_str("`")
}

/// Appends the names of this sort that an interface or a class itself declares.
pub fn push_names(
    out: &mut String,
    outline: &Outline<'_>,
    owner: &str,
    sort: Sort,
) -> Result<(), AllocError> {
    for part in outline.parts {
        if is_of_sort(part.role, sort) && outline.is_in(part, owner) {
            push_name(out, outline.word(part.token))?;
        }
    }
    Ok(())
}

/// The names of this sort that nodes of a class have, those of its interface first.
pub fn names_of_class(
    alloc: Global,
    outline: &Outline<'_>,
    class: &str,
    sort: Sort,
) -> Result<String, AllocError> {
    let mut out = String::new(alloc);
    push_names(&mut out, outline, outline.interface_of(class), sort)?;
    push_names(&mut out, outline, class, sort)?;
    Ok(out)
}

/// The names of this sort that an interface or a class itself declares.
pub fn names_of(
    alloc: Global,
    outline: &Outline<'_>,
    owner: &str,
    sort: Sort,
) -> Result<String, AllocError> {
    let mut out = String::new(alloc);
    push_names(&mut out, outline, owner, sort)?;
    Ok(out)
}

/// The names that play a role, wherever they stand.
pub fn names_in_role(
    alloc: Global,
    outline: &Outline<'_>,
    role: Role,
) -> Result<String, AllocError> {
    let mut out = String::new(alloc);
    for part in outline.parts {
        if part.role == role {
            push_name(&mut out, outline.word(part.token))?;
        }
    }
    Ok(out)
}

/// The classes of an interface.
pub fn classes_of(
    alloc: Global,
    outline: &Outline<'_>,
    interface: &str,
) -> Result<String, AllocError> {
    let mut out = String::new(alloc);
    for part in outline.parts {
        if part.role == Role::ClassInterface && outline.word(part.token) == interface {
            push_name(&mut out, outline.word(part.owner))?;
        }
    }
    Ok(out)
}

/// The name among those of a role that is written the same but for capital letters.
pub fn other_case<'t>(outline: &Outline<'t>, role: Role, name: &str) -> Option<&'t str> {
    for part in outline.parts {
        let word = outline.word(part.token);
        if part.role == role && word != name && word.eq_ignore_ascii_case(name) {
            return Some(word);
        }
    }
    None
}
