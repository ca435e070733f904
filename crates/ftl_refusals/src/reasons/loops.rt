//! Rules that wait for each other. An edge leads from an attribute to one that a rule for it reads.
//! No pass computes the attributes of a loop that has only edges at one node, or that has edges
//! both to a parent and to a child: such a loop is told.

use crate::outline::{Outline, Part, Role, child_of};
use crate::reasons::case::Case;
use crate::reasons::lines::{PathName, RuleName, path_named};
use crate::reasons::pairs::attribute_of_rule;
use crate::reasons::reason::Reason;
use ftl_page::Section;
use std::alloc::{AllocError, Global};
use std::fmt::Write;

/// A read: from the attribute for which its rule is to the one that it reads, both by their place
/// among those that are stuck; whether that is of the parent, of a child, of the kid before.
#[derive(Clone, Copy)]
struct Edge {
    from: usize,
    to: usize,
    up: bool,
    down: bool,
    before: bool,
    read: Part,
}

/// How an attribute was reached: by which edge, from which way.
#[derive(Clone, Copy)]
struct Step {
    edge: usize,
    from: usize,
}

/// The most steps that a search may take.
const MOST: usize = 200000000;

/// Why no schedule is found, by the attributes that are left: `R.a R.b`.
pub fn stuck_reason<'l>(
    alloc: Global,
    case: &Case<'l>,
    outline: &Outline<'l>,
    told: &'l str,
) -> Result<Reason<'l>, AllocError> {
    let mut stuck = Vec::new(alloc);
    for word in told.split(' ') {
        if let Some(path) = path_named(word) {
            stuck.push(path)?;
        }
    }
    let edges = edges_of(alloc, outline, stuck.as_slice())?;
    let found = shortest_loop(alloc, stuck.len(), edges.as_slice())?;
    let Some(first) = found.first() else {
        return Ok(Reason::silent(alloc));
    };
    let name = outline.word(first.read.rule);
    let Reason { range, notes } = Reason::over(
        alloc,
        Section::Grammar,
        Some(first.read.rule),
        name,
        2,
    );
    let mut notes = notes;
    notes.push_str("these rules wait for each other:\n")?;
    for edge in &found {
        push_edge(&mut notes, case, outline, *edge)?;
    }
    notes.push_str("hint: two attributes in place of one, or two interfaces, break a loop\n")?;
    Ok(Reason { range, notes })
}

/// Appends a read with its rule, and their places.
fn push_edge(
    out: &mut String,
    case: &Case<'_>,
    outline: &Outline<'_>,
    edge: Edge,
) -> Result<(), AllocError> {
    let rule = rule_of(outline, edge.read);
    let RuleName { class, owner, name } = rule;
    write!(out, "  `{class} {owner}.{name}`")?;
    case.push_at(out, Section::Grammar, edge.read.rule)?;
    let read = outline.word(edge.read.token);
    let member = outline.member(edge.read.token);
    let last = if edge.read.role == Role::LastRead {
        "last "
    } else {
        ""
    };
    write!(out, " reads `{last}{read}.{member}`")?;
    case.push_at(out, Section::Grammar, edge.read.token)?;
    out.push_str("\n")
}

/// The rule in which a read stands.
fn rule_of<'t>(outline: &Outline<'t>, read: Part) -> RuleName<'t> {
    RuleName {
        class: outline.word(read.owner),
        owner: outline.word(read.rule),
        name: outline.member(read.rule),
    }
}

/// The reads among attributes that are stuck.
fn edges_of(
    alloc: Global,
    outline: &Outline<'_>,
    stuck: &[PathName<'_>],
) -> Result<Vec<Edge>, AllocError> {
    let mut edges = Vec::new(alloc);
    for part in outline.parts {
        if part.role == Role::Read || part.role == Role::LastRead {
            if let Some(edge) = edge_of(outline, stuck, *part) {
                edges.push(edge)?;
            }
        }
    }
    Ok(edges)
}

fn edge_of(outline: &Outline<'_>, stuck: &[PathName<'_>], read: Part) -> Option<Edge> {
    let from = place_among(stuck, attribute_of_rule(outline, rule_of(outline, read)))?;
    if outline.word(read.token) == "self" {
        own_edge(outline, stuck, read, from)
    } else {
        child_edge(outline, stuck, read, from)
    }
}

/// The edge of a read of the node itself.
fn own_edge(
    outline: &Outline<'_>,
    stuck: &[PathName<'_>],
    read: Part,
    from: usize,
) -> Option<Edge> {
    let class = outline.word(read.owner);
    let name = outline.member(read.token);
    let own = RuleName {
        class,
        owner: "self",
        name,
    };
    let interface = outline.interface_of(class);
    Some(Edge {
        from,
        to: place_among(stuck, attribute_of_rule(outline, own))?,
        up: outline.part(Role::Inherited, interface, name).is_some(),
        down: false,
        before: false,
        read,
    })
}

/// The edge of a read of a child. What a child gets may follow from what an earlier one gets: that
/// is none.
fn child_edge(
    outline: &Outline<'_>,
    stuck: &[PathName<'_>],
    read: Part,
    from: usize,
) -> Option<Edge> {
    let rule = rule_of(outline, read);
    let name = outline.member(read.token);
    let owner = outline.word(read.token);
    let child = child_of(outline, rule.class, list_of(outline, read, owner))?;
    let down = outline
        .part(Role::Synthesized, child.interface, name)
        .is_some();
    if !down && name == rule.name && owner != rule.owner && owner != "this" {
        return None;
    }
    let path = PathName {
        owner: child.interface,
        name,
    };
    Some(Edge {
        from,
        to: place_among(stuck, path)?,
        up: false,
        down,
        before: owner == "prev",
        read,
    })
}

/// The child that a read is of: for `this` and `prev` the list for which the rule is.
fn list_of<'t>(outline: &Outline<'t>, read: Part, owner: &'t str) -> &'t str {
    if owner != "this" && owner != "prev" {
        return owner;
    }
    for part in outline.parts {
        if part.role == Role::FoldList && part.rule == read.rule {
            return outline.word(part.token);
        }
    }
    outline.word(read.rule)
}

fn place_among(stuck: &[PathName<'_>], path: PathName<'_>) -> Option<usize> {
    for (k, it) in stuck.iter().enumerate() {
        if it.owner == path.owner && it.name == path.name {
            return Some(k);
        }
    }
    None
}

/// The shortest loop that no pass computes, edge by edge; none at all where the search takes too
/// long.
fn shortest_loop(alloc: Global, count: usize, edges: &[Edge]) -> Result<Vec<Edge>, AllocError> {
    let mut best: Vec<Edge> = Vec::new(alloc);
    let each = count.saturating_mul(4).saturating_mul(edges.len()).max(1);
    for start in 0..count.min(MOST / each) {
        let found = loop_from(alloc, count, edges, start)?;
        if !found.is_empty() && (best.is_empty() || found.len() < best.len()) {
            best = found;
        }
    }
    Ok(best)
}

/// A way is an attribute with what the edges to it were: 1 for one to a parent, 2 for one to a
/// child.
fn way_behind(way: usize, edge: Edge) -> usize {
    let up = way % 4 == 1 || way % 4 == 3 || edge.up;
    let down = way % 4 >= 2 || edge.down;
    let kinds = if up { 1 } else { 0 };
    edge.to
        .saturating_mul(4)
        .saturating_add(kinds)
        .saturating_add(if down { 2 } else { 0 })
}

/// Whether a way that came back is a loop that no pass computes.
fn closes(way: usize, start: usize) -> bool {
    way / 4 == start && (way % 4 == 0 || way % 4 == 3)
}

/// The shortest loop from an attribute back to it; no edge where there is none.
fn loop_from(
    alloc: Global,
    count: usize,
    edges: &[Edge],
    start: usize,
) -> Result<Vec<Edge>, AllocError> {
    let mut seen: Vec<Option<Step>> = Vec::new(alloc);
    for _way in 0..count.saturating_mul(4) {
        seen.push(None)?;
    }
    let mut queue: Vec<usize> = Vec::new(alloc);
    queue.push(start.saturating_mul(4))?;
    for turn in 0..count.saturating_mul(4).saturating_add(1) {
        let Some(way) = queue.get(turn) else {
            break;
        };
        let way = *way;
        if let Some(end) = visit(&mut seen, &mut queue, edges, way, start)? {
            return way_back(alloc, seen.as_slice(), edges, end, start);
        }
    }
    Ok(Vec::new(alloc))
}

/// Goes on from a way by each edge, and gives the way that closes a loop, if one does.
fn visit(
    seen: &mut Vec<Option<Step>>,
    queue: &mut Vec<usize>,
    edges: &[Edge],
    way: usize,
    start: usize,
) -> Result<Option<usize>, AllocError> {
    for (k, edge) in edges.iter().enumerate() {
        if edge.from == way / 4 && !edge.before {
            let next = way_behind(way, *edge);
            if is_new(seen.as_slice(), next) {
                mark_seen(seen, next, Step { edge: k, from: way });
                queue.push(next)?;
                if closes(next, start) {
                    return Ok(Some(next));
                }
            }
        }
    }
    Ok(None)
}

fn is_new(seen: &[Option<Step>], way: usize) -> bool {
    match seen.get(way) {
        Some(None) => true,
        _ => false,
    }
}

fn mark_seen(seen: &mut Vec<Option<Step>>, way: usize, step: Step) {
    if let Some(place) = seen.get_mut(way) {
        *place = Some(step);
    }
}

/// The edges of the loop that the way closes, from its start on.
fn way_back(
    alloc: Global,
    seen: &[Option<Step>],
    edges: &[Edge],
    end: usize,
    start: usize,
) -> Result<Vec<Edge>, AllocError> {
    let mut found: Vec<Edge> = Vec::new(alloc);
    let mut way = end;
    for _turn in 0..seen.len() {
        let Some(Some(step)) = seen.get(way) else {
            break;
        };
        if let Some(edge) = edges.get(step.edge) {
            found.push(*edge)?;
        }
        way = step.from;
        if way == start.saturating_mul(4) {
            break;
        }
    }
    found.reverse();
    Ok(found)
}
