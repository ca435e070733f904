//! Faults of schedules.

use crate::outline::{Outline, Role};
use crate::reasons::case::Case;
use crate::reasons::grammar::with_names;
use crate::reasons::lines::{PathName, between, number_named, path_named, told_by};
use crate::reasons::loops::stuck_reason;
use crate::reasons::names::{Sort, classes_of, names_of};
use crate::reasons::pairs::unordered_reason;
use crate::reasons::reason::Reason;
use crate::tokens::{first_named, first_path, kind_at, word_at};
use ftl_page::Section;
use ftl_tokens::{Kind, TokenizedText};
use std::alloc::{AllocError, Global};

/// Why a schedule is refused that follows the syntax.
pub fn schedule_reason<'l>(
    alloc: Global,
    case: &Case<'l>,
    line: &'l str,
) -> Result<Reason<'l>, AllocError> {
    let told = told_by(line);
    let Some(outline) = case.outline() else {
        return Ok(Reason::silent(alloc));
    };
    if let Some(rest) = told.strip_prefix("stuck ") {
        return stuck_reason(alloc, case, &outline, rest);
    }
    match case.tokens(Section::Schedule) {
        Some(scanned) => written_reason(alloc, case, &outline, scanned, told),
        None => Ok(Reason::silent(alloc)),
    }
}

/// Why a schedule is refused that is written.
fn written_reason<'l>(
    alloc: Global,
    case: &Case<'l>,
    outline: &Outline<'l>,
    scanned: &'l TokenizedText,
    told: &'l str,
) -> Result<Reason<'l>, AllocError> {
    if let Some(pair) = between(told, "", " unordered") {
        return unordered_reason(alloc, case, outline, scanned, pair);
    }
    if let Some(rest) = told.strip_prefix("too many passes") {
        return too_many_passes(alloc, scanned, rest);
    }
    if let Some(name) = between(told, "unknown class ", "") {
        return unknown_host(alloc, outline, scanned, name);
    }
    if let Some(name) = between(told, "nest ", " is not closed") {
        let reason = Reason::at(alloc, Section::Schedule, host_token(scanned, name), name);
        return reason.with(
            "hint: what is below the class has to stand below one node of it, and nowhere else",
        );
    }
    attribute_reason(alloc, case, outline, scanned, told)
}

/// What is amiss with an attribute in a schedule.
fn attribute_reason<'l>(
    alloc: Global,
    case: &Case<'l>,
    outline: &Outline<'l>,
    scanned: &'l TokenizedText,
    told: &'l str,
) -> Result<Reason<'l>, AllocError> {
    if let Some(path) = attribute_between(told, "unknown attribute ", "") {
        return unknown_attribute(alloc, outline, scanned, path);
    }
    if let Some(path) = attribute_between(told, "", " on the wrong side of a nest") {
        let reason = at_path(alloc, scanned, 0, path);
        return reason.with(
            "hint: attributes of nodes below the nest's class stand in the nest, others outside",
        );
    }
    if let Some(path) = attribute_between(told, "", " twice") {
        return attribute_twice(alloc, case, scanned, path);
    }
    if let Some(path) = attribute_between(told, "", " missing") {
        return attribute_missing(alloc, case, outline, scanned, path);
    }
    Ok(Reason::silent(alloc))
}

fn attribute_between<'l>(told: &'l str, beginning: &str, end: &str) -> Option<PathName<'l>> {
    path_named(between(told, beginning, end)?)
}

/// The first `Owner.name` from a token on.
fn at_path<'l>(
    alloc: Global,
    scanned: &'l TokenizedText,
    from: usize,
    path: PathName<'l>,
) -> Reason<'l> {
    let token = first_path(scanned, from, path.owner, path.name);
    Reason::over(alloc, Section::Schedule, token, path.owner, 2)
}

/// The name of a class behind `nest`.
fn host_token(scanned: &TokenizedText, name: &str) -> Option<usize> {
    let mut from = 0;
    for _turn in 0..scanned.list().len() {
        let nest = first_named(scanned, from, "nest")?;
        let host = nest.saturating_add(1);
        if word_at(scanned, host) == name {
            return Some(host);
        }
        from = host;
    }
    None
}

fn unknown_host<'l>(
    alloc: Global,
    outline: &Outline<'l>,
    scanned: &'l TokenizedText,
    name: &'l str,
) -> Result<Reason<'l>, AllocError> {
    let reason = Reason::at(alloc, Section::Schedule, host_token(scanned, name), name);
    let names = classes_of(alloc, outline, name)?;
    with_names(
        reason,
        "hint: this is an interface; its classes are ",
        names.as_str(),
    )
}

fn unknown_attribute<'l>(
    alloc: Global,
    outline: &Outline<'l>,
    scanned: &'l TokenizedText,
    path: PathName<'l>,
) -> Result<Reason<'l>, AllocError> {
    let reason = at_path(alloc, scanned, 0, path);
    if let Some(part) = outline.attribute(path.owner, path.name) {
        if part.role == Role::Input {
            return reason.with("hint: inputs stand in no list: the document gives them");
        }
    }
    let interface = outline.interface_of(path.owner);
    if outline.attribute(interface, path.name).is_some() {
        return with_names(
            reason,
            "hint: an `inh` or `syn` is named with its interface, here ",
            interface,
        );
    }
    let names = names_of(alloc, outline, path.owner, Sort::Computed)?;
    with_names(reason, "hint: what is computed there is ", names.as_str())
}

fn attribute_twice<'l>(
    alloc: Global,
    case: &Case<'l>,
    scanned: &'l TokenizedText,
    path: PathName<'l>,
) -> Result<Reason<'l>, AllocError> {
    let Some(first) = first_path(scanned, 0, path.owner, path.name) else {
        return Ok(Reason::silent(alloc));
    };
    let Reason { range, notes } = at_path(alloc, scanned, first.saturating_add(1), path);
    let mut notes = notes;
    notes.push_str("the first one stands")?;
    case.push_at(&mut notes, Section::Schedule, first)?;
    notes.push_str("\n")?;
    Ok(Reason { range, notes })
}

/// An attribute that stands in no list: its declaration is meant or, where the grammar does not
/// stand in the file, the end of the schedule.
fn attribute_missing<'l>(
    alloc: Global,
    case: &Case<'l>,
    outline: &Outline<'l>,
    scanned: &'l TokenizedText,
    path: PathName<'l>,
) -> Result<Reason<'l>, AllocError> {
    let last = scanned.list().len().saturating_sub(1);
    let reason = match outline.attribute(path.owner, path.name) {
        Some(part) if case.place(Section::Grammar, part.token).is_some() => {
            Reason::at(alloc, Section::Grammar, Some(part.token), path.name)
        }
        _ => Reason::at(alloc, Section::Schedule, Some(last), word_at(scanned, last)),
    };
    reason.with("hint: each computed attribute stands in a list; `%schedule auto` finds a schedule")
}

/// The pass that is one too many: of all, or of a stage.
fn too_many_passes<'l>(
    alloc: Global,
    scanned: &'l TokenizedText,
    rest: &str,
) -> Result<Reason<'l>, AllocError> {
    let token = match rest.strip_prefix(": ") {
        Some(count) => pass_of_count(scanned, number_named(count).unwrap_or(0)),
        None => fifth_beside(scanned),
    };
    match token {
        Some(k) => {
            let reason = Reason::at(alloc, Section::Schedule, Some(k), word_at(scanned, k));
            reason.with(if rest.starts_with(": ") {
                "expected at most 2048 passes"
            } else {
                "expected at most 4 passes beside each other"
            })
        }
        None => Ok(Reason::silent(alloc)),
    }
}

fn is_pass(scanned: &TokenizedText, k: usize) -> bool {
    let word = word_at(scanned, k);
    (word == "topdown" || word == "bottomup" || word == "inorder")
        && kind_at(scanned, k.saturating_add(1)) == Some(Kind::LeftBrace)
}

/// The last of so many passes.
fn pass_of_count(scanned: &TokenizedText, count: usize) -> Option<usize> {
    let mut seen: usize = 0;
    for k in 0..scanned.list().len() {
        if is_pass(scanned, k) {
            seen = seen.saturating_add(1);
            if seen == count {
                return Some(k);
            }
        }
    }
    None
}

/// The first pass that has four others of its stage before it.
fn fifth_beside(scanned: &TokenizedText) -> Option<usize> {
    let mut joined: usize = 0;
    for k in 0..scanned.list().len() {
        joined = match kind_at(scanned, k) {
            Some(Kind::OrOr) => joined.saturating_add(1),
            Some(Kind::Semicolon) => 0,
            _ => joined,
        };
        if joined > 3 && is_pass(scanned, k) {
            return Some(k);
        }
    }
    None
}
