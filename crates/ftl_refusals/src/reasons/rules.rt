//! Faults of rules.

use crate::outline::{Outline, Part, Role, child_of, is_attribute};
use crate::reasons::case::Case;
use crate::reasons::grammar::with_names;
use crate::reasons::lines::{PathName, RuleName, path_named, rule_before, rule_named};
use crate::reasons::names::{Sort, names_of, names_of_class};
use crate::reasons::reason::Reason;
use ftl_page::Section;
use std::alloc::{AllocError, Global};
use std::fmt::Write;

/// Why a rule is refused, or that one is missing.
pub fn rule_reason<'l>(
    alloc: Global,
    case: &Case<'l>,
    outline: &Outline<'l>,
    told: &'l str,
) -> Result<Reason<'l>, AllocError> {
    if let Some(rule) = rule_before(told, " is not assignable") {
        return not_assignable(alloc, outline, rule);
    }
    if let Some(rule) = rule_before(told, " has a wrong form") {
        return wrong_form(alloc, outline, rule);
    }
    if let Some(rule) = rule_before(told, " has two rules") {
        return two_rules(alloc, case, outline, rule);
    }
    if let Some(rule) = rule_before(told, " has no rule") {
        return no_rule(alloc, case, outline, rule);
    }
    if let Some((rule, read)) = told.split_once(" must not read ") {
        if let Some(rule) = rule_named(rule) {
            return must_not_read(alloc, outline, rule, read);
        }
    }
    Ok(Reason::silent(alloc))
}

/// The target of a rule of this name, of which the first `before` are left out.
pub fn at_rule<'l>(
    alloc: Global,
    outline: &Outline<'l>,
    rule: RuleName<'l>,
    before: usize,
) -> Reason<'l> {
    match outline.rule(rule.class, rule.owner, rule.name, before) {
        Some(part) => Reason::over(alloc, Section::Grammar, Some(part.token), rule.owner, 2),
        None => Reason::silent(alloc),
    }
}

fn not_assignable<'l>(
    alloc: Global,
    outline: &Outline<'l>,
    rule: RuleName<'l>,
) -> Result<Reason<'l>, AllocError> {
    let reason = at_rule(alloc, outline, rule, 0);
    if rule.owner == "self" {
        return match outline.attribute_of_class(rule.class, rule.name) {
            Some(part) => reason.with(own_note(part.role)),
            None => {
                let names = names_of_class(alloc, outline, rule.class, Sort::Own)?;
                with_names(reason, "hint: the node computes ", names.as_str())
            }
        };
    }
    let Some(child) = child_of(outline, rule.class, rule.owner) else {
        let names = names_of(alloc, outline, rule.class, Sort::Children)?;
        return with_names(
            reason,
            "hint: the children of the class are ",
            names.as_str(),
        );
    };
    let names = names_of(alloc, outline, child.interface, Sort::Inherited)?;
    let told = with_names(reason, "hint: a parent gives ", names.as_str())?;
    match outline.attribute(child.interface, rule.name) {
        Some(part) if part.role == Role::Synthesized => {
            told.with("hint: a `syn` is computed by the child's own class")
        }
        Some(_) => told.with("hint: the document gives an `input`"),
        None => Ok(told),
    }
}

fn own_note(role: Role) -> &'static str {
    match role {
        Role::Inherited => { "hint: an `inh` is given by the parent's class, as `body.x := ..`" }
        Role::Input => "hint: an `input` is given by the document, and has no rule",
        _ => "hint: this is computed elsewhere",
    }
}

fn wrong_form<'l>(
    alloc: Global,
    outline: &Outline<'l>,
    rule: RuleName<'l>,
) -> Result<Reason<'l>, AllocError> {
    let reason = at_rule(alloc, outline, rule, 0);
    reason.with("hint: `fold` and `first` are for lists, which are declared as `kids : [Box];`")
}

fn two_rules<'l>(
    alloc: Global,
    case: &Case<'l>,
    outline: &Outline<'l>,
    rule: RuleName<'l>,
) -> Result<Reason<'l>, AllocError> {
    let Reason { range, notes } = at_rule(alloc, outline, rule, 1);
    let mut notes = notes;
    if let Some(first) = outline.rule(rule.class, rule.owner, rule.name, 0) {
        notes.push_str("the first one stands")?;
        case.push_at(&mut notes, Section::Grammar, first.token)?;
        notes.push_str("\n")?;
    }
    Ok(Reason { range, notes })
}

fn no_rule<'l>(
    alloc: Global,
    case: &Case<'l>,
    outline: &Outline<'l>,
    rule: RuleName<'l>,
) -> Result<Reason<'l>, AllocError> {
    let token = match outline.declared(Role::Class, rule.class) {
        Some(part) => Some(part.token),
        None => None,
    };
    let Reason { range, notes } = Reason::at(alloc, Section::Grammar, token, rule.class);
    let mut notes = notes;
    let RuleName { class, owner, name } = rule;
    write!(
        notes,
        "expected a rule `{owner}.{name} := ..;` in this class"
    )?;
    if let Some(part) = declaration(outline, class, owner, name) {
        notes.push_str("; it is declared")?;
        case.push_at(&mut notes, Section::Grammar, part.token)?;
    }
    notes.push_str("\n")?;
    Ok(Reason { range, notes })
}

/// The declaration of `self.a` or `child.a` in a class.
pub fn declaration(outline: &Outline<'_>, class: &str, owner: &str, name: &str) -> Option<Part> {
    if owner == "self" {
        return outline.attribute_of_class(class, name);
    }
    outline.attribute(child_of(outline, class, owner)?.interface, name)
}

/// A read that may not stand in its rule.
fn must_not_read<'l>(
    alloc: Global,
    outline: &Outline<'l>,
    rule: RuleName<'l>,
    read: &'l str,
) -> Result<Reason<'l>, AllocError> {
    let (last, text) = match read.strip_prefix("last ") {
        Some(text) => (true, text),
        None => (false, read),
    };
    let Some(path) = path_named(text) else {
        return Ok(Reason::silent(alloc));
    };
    let reason = match read_part(outline, rule, path, last) {
        Some(part) => Reason::over(alloc, Section::Grammar, Some(part.token), path.owner, 2),
        None => Reason::silent(alloc),
    };
    match read_note(outline, rule, path, last) {
        Some(note) => reason.with(note),
        None => with_readable(alloc, outline, rule.class, path, reason),
    }
}

/// The first such read of a rule.
fn read_part(
    outline: &Outline<'_>,
    rule: RuleName<'_>,
    path: PathName<'_>,
    last: bool,
) -> Option<Part> {
    let role = if last { Role::LastRead } else { Role::Read };
    for part in outline.parts {
        if part.role == role
            && outline.is_in(part, rule.class)
            && outline.word(part.rule) == rule.owner
            && outline.member(part.rule) == rule.name
            && outline.word(part.token) == path.owner
            && outline.member(part.token) == path.name
        {
            return Some(*part);
        }
    }
    None
}

/// What is amiss with a read whose attribute may be declared.
fn read_note(
    outline: &Outline<'_>,
    rule: RuleName<'_>,
    path: PathName<'_>,
    last: bool,
) -> Option<&'static str> {
    if path.owner == "parent" {
        return Some("hint: a parent is not read: declare an `inh`, which the parent's class gives");
    }
    if last {
        return match child_of(outline, rule.class, path.owner) {
            Some(child) if child.list => Some(
                "hint: a rule for a list has no `last`: compute it in a `local`, and read that",
            ),
            Some(_) => Some("hint: `last` is of a list; a single child is read as `body.w`"),
            None => None,
        };
    }
    if path.owner == "prev" {
        return Some("hint: `prev` stands behind `then`: `kids.x := first 0 then prev.x`");
    }
    if path.owner == "this" && rule.owner == "self" {
        return Some("hint: `this` is the current kid of a list; the node itself is `self`");
    }
    match child_of(outline, rule.class, path.owner) {
        Some(child) if child.list => Some(
            "hint: of a list is read `fold kids from 0 with ..`, or `last kids.h or 0`",
        ),
        _ => None,
    }
}

/// What could be read, where a name is not declared.
fn with_readable<'l>(
    alloc: Global,
    outline: &Outline<'l>,
    class: &str,
    path: PathName<'_>,
    reason: Reason<'l>,
) -> Result<Reason<'l>, AllocError> {
    if path.owner == "self" {
        let names = names_of_class(alloc, outline, class, Sort::Attributes)?;
        return with_names(reason, "hint: the node has ", names.as_str());
    }
    if path.owner == "this" {
        return Ok(reason);
    }
    match child_of(outline, class, path.owner) {
        Some(child) => {
            let names = names_of(alloc, outline, child.interface, Sort::Attributes)?;
            with_names(reason, "hint: of this child is known ", names.as_str())
        }
        None => {
            let names = names_of(alloc, outline, class, Sort::Children)?;
            with_names(
                reason,
                "hint: the children of the class are ",
                names.as_str(),
            )
        }
    }
}

/// Whether a part declares an attribute that is computed.
pub fn is_computed(role: Role) -> bool {
    is_attribute(role) && role != Role::Input
}
