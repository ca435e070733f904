//! Faults of what a grammar declares.

use crate::outline::{Outline, Part, Role};
use crate::reasons::case::Case;
use crate::reasons::lines::{between, number_named, told_by};
use crate::reasons::names::{Sort, classes_of, names_in_role, names_of, other_case};
use crate::reasons::reason::Reason;
use crate::reasons::rules::rule_reason;
use ftl_page::Section;
use std::alloc::{AllocError, Global};
use std::fmt::Write;

/// Why a grammar is refused that follows the syntax.
pub fn grammar_reason<'l>(
    alloc: Global,
    case: &Case<'l>,
    line: &'l str,
) -> Result<Reason<'l>, AllocError> {
    let told = told_by(line);
    let Some(outline) = case.outline() else {
        return Ok(Reason::silent(alloc));
    };
    if let Some(rest) = told.strip_prefix("too many ") {
        return too_many(alloc, &outline, rest);
    }
    if let Some(name) = between(told, "name ", " twice") {
        return name_twice(alloc, case, &outline, name);
    }
    if let Some(name) = between(told, "root ", " is no interface") {
        return no_interface(alloc, &outline, Role::Root, name);
    }
    if let Some(name) = between(told, "unknown name ", "") {
        return unknown_name(alloc, &outline, name);
    }
    if let Some(name) = between(told, "root ", " inherits") {
        return root_inherits(alloc, &outline, name);
    }
    rule_reason(alloc, case, &outline, told)
}

/// A token of the grammar that says this.
pub fn at_part<'l>(alloc: Global, part: Option<Part>, name: &'l str) -> Reason<'l> {
    match part {
        Some(part) => Reason::at(alloc, Section::Grammar, Some(part.token), name),
        None => Reason::silent(alloc),
    }
}

/// The same with a note that ends with a list of names; without it where there are none.
pub fn with_names<'l>(
    reason: Reason<'l>,
    before: &str,
    names: &str,
) -> Result<Reason<'l>, AllocError> {
    if names.is_empty() {
        return Ok(reason);
    }
    let Reason { range, notes } = reason;
    let mut notes = notes;
    notes.push_str(before)?;
    notes.push_str(names)?;
    notes.push_str("\n")?;
    Ok(Reason { range, notes })
}

/// A name that stands a second time.
fn name_twice<'l>(
    alloc: Global,
    case: &Case<'l>,
    outline: &Outline<'l>,
    name: &'l str,
) -> Result<Reason<'l>, AllocError> {
    for part in outline.parts {
        if let Some(first) = first_of_two(outline, *part, name) {
            let Reason { range, notes } = at_part(alloc, Some(*part), name);
            let mut notes = notes;
            notes.push_str("the first one stands")?;
            case.push_at(&mut notes, Section::Grammar, first.token)?;
            notes.push_str("\n")?;
            return Ok(Reason { range, notes });
        }
    }
    Ok(Reason::silent(alloc))
}

/// The earlier one of two names that may not be one, where the part is the later one.
fn first_of_two(outline: &Outline<'_>, part: Part, name: &str) -> Option<Part> {
    if outline.word(part.token) != name || name_space(part.role) == Space::None {
        return None;
    }
    for first in outline.parts {
        if outline.word(first.token) == name && are_one_space(outline, *first, part) {
            return Some(*first);
        }
    }
    None
}

/// What names may not be the same.
#[derive(Clone, Copy, PartialEq, Eq)]
enum Space {
    /// Interfaces and classes.
    Top,
    /// Attributes and children.
    Members,
    /// Names after `show`.
    Shown,
    /// This is no declaration.
    None,
}

fn name_space(role: Role) -> Space {
    match role {
        Role::Interface | Role::Class => Space::Top,
        Role::Shown => Space::Shown,
        Role::Inherited | Role::Synthesized | Role::Input | Role::Local | Role::Child => {
            Space::Members
        }
        _ => Space::None,
    }
}

/// Whether the first of two parts stands before the other, among names with which it is to differ.
fn are_one_space(outline: &Outline<'_>, first: Part, part: Part) -> bool {
    let space = name_space(part.role);
    if name_space(first.role) != space {
        return false;
    }
    let owner = outline.word(part.owner);
    let interface = outline.interface_of(owner);
    match space {
        Space::Top => first.token < part.token,
        Space::None => false,
        _ => {
            (first.token < part.token && first.owner == part.owner)
                || (first.owner != part.owner && outline.is_in(&first, interface))
        }
    }
}

/// The name of an interface that is none.
fn no_interface<'l>(
    alloc: Global,
    outline: &Outline<'l>,
    role: Role,
    name: &'l str,
) -> Result<Reason<'l>, AllocError> {
    let reason = at_part(alloc, outline.declared(role, name), name);
    if let Some(class) = outline.declared(Role::Class, name) {
        let interface = outline.interface_of(outline.word(class.token));
        return with_names(
            reason,
            "hint: this is a class; its interface is ",
            interface,
        );
    }
    if let Some(other) = other_case(outline, Role::Interface, name) {
        return with_names(reason, "hint: capital and small letters differ: ", other);
    }
    let names = names_in_role(alloc, outline, Role::Interface)?;
    with_names(reason, "the interfaces are ", names.as_str())
}

/// A name after `show` that is no attribute, or one of an interface that is none.
fn unknown_name<'l>(
    alloc: Global,
    outline: &Outline<'l>,
    name: &'l str,
) -> Result<Reason<'l>, AllocError> {
    for part in outline.parts {
        let owner = outline.word(part.owner);
        if part.role == Role::Shown
            && outline.word(part.token) == name
            && outline.attribute(owner, name).is_none()
        {
            let reason = at_part(alloc, Some(*part), name);
            let names = names_of(alloc, outline, owner, Sort::Attributes)?;
            let told = with_names(
                reason,
                "the attributes of the interface are ",
                names.as_str(),
            )?;
            return told.with(
                "hint: what a class alone declares is not shown: declare it in the interface",
            );
        }
    }
    for role in [Role::ClassInterface, Role::SingleOf, Role::ListOf] {
        if outline.declared(role, name).is_some() {
            return no_interface(alloc, outline, role, name);
        }
    }
    Ok(Reason::silent(alloc))
}

fn root_inherits<'l>(
    alloc: Global,
    outline: &Outline<'l>,
    name: &'l str,
) -> Result<Reason<'l>, AllocError> {
    match outline.first(Role::Inherited, name) {
        Some(part) => {
            let reason = at_part(alloc, Some(part), outline.word(part.token));
            reason.with("hint: the first node has no parent that could give it: declare an `input`")
        }
        None => Ok(Reason::silent(alloc)),
    }
}

/// Limits on how much there is of anything.
fn too_many<'l>(
    alloc: Global,
    outline: &Outline<'l>,
    rest: &str,
) -> Result<Reason<'l>, AllocError> {
    let Some((what, count)) = rest.split_once(": ") else {
        return Ok(Reason::silent(alloc));
    };
    let Some(count) = number_named(count) else {
        return Ok(Reason::silent(alloc));
    };
    let part = match what {
        "interfaces" => last_of(outline, Space::Top, Role::Interface),
        "classes" => last_of(outline, Space::Top, Role::Class),
        "attributes" => last_of_many(outline, false, count),
        "children" => last_of_many(outline, true, count),
        "attributes in all" => None,
        _ => first_read_of_many(outline, count),
    };
    let reason = match part {
        Some(part) => at_part(alloc, Some(part), outline.word(part.token)),
        None => Reason::silent(alloc),
    };
    reason.with(limit_note(what))
}

fn limit_note(what: &str) -> &'static str {
    match what {
        "interfaces" => "expected at most 128 interfaces",
        "classes" => "expected at most 128 classes",
        "attributes" => "expected at most 64 attributes of an interface, and of a class itself",
        "children" => "expected at most 16 children of a class",
        "attributes in all" => "expected at most 2048 attributes in all",
        _ => "expected at most 256 reads in an expression",
    }
}

/// The last part that plays a role.
fn last_of(outline: &Outline<'_>, space: Space, role: Role) -> Option<Part> {
    let mut last = None;
    for part in outline.parts {
        if part.role == role && name_space(part.role) == space {
            last = Some(*part);
        }
    }
    last
}

/// The last of so many attributes, or children, that one interface or class declares.
fn last_of_many(outline: &Outline<'_>, children: bool, count: usize) -> Option<Part> {
    let mut owner = 0;
    let mut seen: usize = 0;
    for part in outline.parts {
        if part.owner != owner {
            owner = part.owner;
            seen = 0;
        }
        if name_space(part.role) == Space::Members && (part.role == Role::Child) == children {
            seen = seen.saturating_add(1);
            if seen == count {
                return Some(*part);
            }
        }
    }
    None
}

/// The target of the first rule that has at least so many reads.
fn first_read_of_many(outline: &Outline<'_>, count: usize) -> Option<Part> {
    let mut target = None;
    let mut seen: usize = 0;
    for part in outline.parts {
        if part.role == Role::Target {
            target = Some(*part);
            seen = 0;
        }
        if part.role == Role::Read || part.role == Role::LastRead {
            seen = seen.saturating_add(1);
            if seen == count {
                return target;
            }
        }
    }
    None
}

/// Appends the classes of an interface as a note.
pub fn with_classes<'l>(
    alloc: Global,
    reason: Reason<'l>,
    outline: &Outline<'_>,
    interface: &str,
) -> Result<Reason<'l>, AllocError> {
    let names = classes_of(alloc, outline, interface)?;
    if names.is_empty() {
        return Ok(reason);
    }
    let Reason { range, notes } = reason;
    let mut notes = notes;
    write!(notes, "the classes of `{interface}` are ")?;
    notes.push_str(names.as_str())?;
    notes.push_str("\n")?;
    Ok(Reason { range, notes })
}
