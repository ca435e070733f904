//! Why a rule may run before one that writes what it reads.

use crate::outline::{Entry, Outline, Pass, Role, child_of, schedule_entries};
use crate::reasons::case::Case;
use crate::reasons::lines::{PathName, RuleName, rule_named};
use crate::reasons::reason::Reason;
use crate::tokens::word_at;
use ftl_page::Section;
use ftl_tokens::TokenizedText;
use std::alloc::{AllocError, Global};
use std::fmt::Write;

/// Where the rule that writes runs, seen from the one that reads.
#[derive(Clone, Copy)]
enum Relation {
    /// At the same node.
    Here,
    /// At the parent.
    Parent,
    /// At a child.
    Child,
    /// At the same node, for the kid before.
    KidBefore,
}

/// Why a pair of rules is refused, by the words `Row self.w reads Row self.sum`.
pub fn unordered_reason<'l>(
    alloc: Global,
    case: &Case<'l>,
    outline: &Outline<'l>,
    scanned: &'l TokenizedText,
    pair: &'l str,
) -> Result<Reason<'l>, AllocError> {
    let Some((reader, writer)) = pair.split_once(" reads ") else {
        return Ok(Reason::silent(alloc));
    };
    let (Some(reader), Some(writer)) = (rule_named(reader), rule_named(writer)) else {
        return Ok(Reason::silent(alloc));
    };
    let entries = schedule_entries(alloc, scanned)?;
    let read_by = attribute_of_rule(outline, reader);
    let (Some(first), Some(second)) = (
        entry_of(scanned, entries.as_slice(), read_by),
        entry_of(
            scanned,
            entries.as_slice(),
            attribute_of_rule(outline, writer),
        ),
    ) else {
        return Ok(Reason::silent(alloc));
    };
    let Reason { range, notes } = Reason::over(
        alloc,
        Section::Schedule,
        Some(first.token),
        read_by.owner,
        2,
    );
    let mut notes = notes;
    push_rule(&mut notes, case, outline, "", reader)?;
    push_pass(&mut notes, case, scanned, first)?;
    push_rule(&mut notes, case, outline, "reads ", writer)?;
    push_pass(&mut notes, case, scanned, second)?;
    push_why(
        &mut notes,
        outline,
        scanned,
        Pair { reader, writer },
        (first, second),
    )?;
    Ok(Reason { range, notes })
}

/// Two rules of which the first reads what the second writes.
#[derive(Clone, Copy)]
struct Pair<'l> {
    reader: RuleName<'l>,
    writer: RuleName<'l>,
}

/// The attribute for which a rule is, as schedules name it.
pub fn attribute_of_rule<'l>(outline: &Outline<'l>, rule: RuleName<'l>) -> PathName<'l> {
    let RuleName { class, owner, name } = rule;
    if owner == "self" {
        if outline.part(Role::Local, class, name).is_some() {
            return PathName { owner: class, name };
        }
        return PathName {
            owner: outline.interface_of(class),
            name,
        };
    }
    PathName {
        owner: match child_of(outline, class, owner) {
            Some(child) => child.interface,
            None => "",
        },
        name,
    }
}

fn entry_of(scanned: &TokenizedText, entries: &[Entry], path: PathName<'_>) -> Option<Entry> {
    for entry in entries {
        if word_at(scanned, entry.token) == path.owner
            && word_at(scanned, entry.token.saturating_add(2)) == path.name
        {
            return Some(*entry);
        }
    }
    None
}

/// Appends a rule with its place in the file.
fn push_rule(
    out: &mut String,
    case: &Case<'_>,
    outline: &Outline<'_>,
    before: &str,
    rule: RuleName<'_>,
) -> Result<(), AllocError> {
    let RuleName { class, owner, name } = rule;
    out.push_str(before)?;
    write!(out, "`{class} {owner}.{name}`")?;
    match outline.rule(class, owner, name, 0) {
        Some(part) => case.push_at(out, Section::Grammar, part.token),
        None => Ok(()),
    }
}

/// Appends in which pass an attribute stands, and a line feed.
fn push_pass(
    out: &mut String,
    case: &Case<'_>,
    scanned: &TokenizedText,
    entry: Entry,
) -> Result<(), AllocError> {
    let pass = match entry.inner {
        Some(inner) => inner,
        None => entry.outer,
    };
    out.push_str(", in the `")?;
    out.push_str(word_at(scanned, pass.token))?;
    out.push_str("` pass")?;
    case.push_at(out, Section::Schedule, pass.token)?;
    out.push_str("\n")
}

/// Appends why the first of two attributes may be computed before the second.
fn push_why(
    out: &mut String,
    outline: &Outline<'_>,
    scanned: &TokenizedText,
    pair: Pair<'_>,
    entries: (Entry, Entry),
) -> Result<(), AllocError> {
    let (first, second) = entries;
    out.push_str("hint: `")?;
    out.push_str(word_at(scanned, second.token))?;
    out.push_str(".")?;
    out.push_str(word_at(scanned, second.token.saturating_add(2)))?;
    out.push_str("` ")?;
    out.push_str(why(outline, scanned, pair, first, second))?;
    out.push_str("\n")
}

fn why(
    outline: &Outline<'_>,
    scanned: &TokenizedText,
    pair: Pair<'_>,
    first: Entry,
    second: Entry,
) -> &'static str {
    if first.outer.token != second.outer.token {
        return between_passes(first.outer, second.outer);
    }
    match (first.inner, second.inner) {
        (Some(one), Some(other)) if one.token != other.token => between_passes(one, other),
        (Some(one), Some(_)) => in_pass(outline, scanned, pair, one, (first, second)),
        (None, None) => in_pass(outline, scanned, pair, first.outer, (first, second)),
        (Some(_), None) => {
            "stands outside the nest, and what reads it inside: the pass has to be `topdown`"
        }
        (None, Some(_)) => {
            "stands in the nest, and what reads it outside: the pass has to be `bottomup`"
        }
    }
}

fn between_passes(first: Pass, second: Pass) -> &'static str {
    if first.stage == second.stage {
        "is computed by another pass of the same stage: passes beside each other wait for nothing"
    } else {
        "is computed in a later stage"
    }
}

/// Why the pair is not ordered by one pass.
fn in_pass(
    outline: &Outline<'_>,
    scanned: &TokenizedText,
    pair: Pair<'_>,
    pass: Pass,
    entries: (Entry, Entry),
) -> &'static str {
    let kind = word_at(scanned, pass.token);
    let (first, second) = entries;
    match relation_of(outline, pair) {
        Relation::Parent => { "is given by the parent: the pass has to be `topdown` or `inorder`" }
        Relation::Child if kind == "topdown" => {
            "is computed by a child, which is visited later: the pass has to be `bottomup`"
        }
        Relation::Child => { "is computed by a child, which an `inorder` pass visits later" }
        Relation::KidBefore if kind != "inorder" => {
            "is given to the kid before by another rule: the pass has to be `inorder`"
        }
        _ if second.token > first.token => "stands later in the same list",
        _ if kind == "inorder" => {
            "is computed later in a visit: locals, then what kids get, then the `syn`"
        }
        _ => "is computed at the same node, and not before",
    }
}

/// Where the rule that writes runs, by the first such read of the rule that reads.
fn relation_of(outline: &Outline<'_>, pair: Pair<'_>) -> Relation {
    let Pair { reader, writer } = pair;
    for part in outline.parts {
        if (part.role == Role::Read || part.role == Role::LastRead)
            && outline.is_in(part, reader.class)
            && outline.word(part.rule) == reader.owner
            && outline.member(part.rule) == reader.name
            && outline.member(part.token) == writer.name
        {
            let owner = outline.word(part.token);
            if let Some(found) = relation_by(owner, reader.class == writer.class, writer.owner) {
                return found;
            }
        }
    }
    Relation::Here
}

/// Where the rule that writes `writer.a` runs, for a read `owner.a`; none where it is not what
/// writes that.
fn relation_by(owner: &str, same_class: bool, writer: &str) -> Option<Relation> {
    if writer == "self" && owner == "self" {
        return if same_class {
            Some(Relation::Here)
        } else {
            None
        };
    }
    if writer == "self" {
        return Some(Relation::Child);
    }
    match owner {
        "self" => Some(Relation::Parent),
        "prev" => Some(Relation::KidBefore),
        _ => Some(Relation::Here),
    }
}
