//! What each rule reads of neighbours.
ghost use Rattle.std.specs.Prelude.{◌≡◌, false, map, None, Some, IfOk};
ghost use Rattle.ftl_deps.specs.reads.Meant.{meant};
ghost use Rattle.ftl_step_value.specs.limits.reads.ReadTables.{AreTables};
ghost use Rattle.ftl_tree.specs.rows.ClassRows.{AreAttributePlaces};
ghost use Rattle.ftl_deps.specs.parts.RuleParts.{parts_meant, read_meant};
ghost use Rattle.ftl_step_value.specs.neighbours.NeighbourParts.{AreNeighbourParts, fold_parts};
ghost use Rattle.ftl_step_value.specs.neighbours.NeighbourParts.{kids_parts};
ghost use Rattle.ftl_step_value.specs.neighbours.NeighbourParts.{neighbour_list};
ghost use Rattle.ftl_step_value.specs.neighbours.NeighbourParts.{neighbour_parts_of, own_parts};

use crate::limits::ReadTables;
use crate::neighbours::reads::{NeighbourRead, neighbour_list};
use ftl_checked::Checked;
use ftl_deps::{PartRead, RuleParts};
use sqlite_items::Items;
use std::alloc::{AllocError, Global};

/// What a rule reads of neighbours, where it reads of no others.
#[derive(Drop)]
pub enum NeighbourParts {
    /// A rule of one part for the node itself.
    Own(Items<NeighbourRead>),
    /// A rule for the kids of this child: for its first kid, and for each later one.
    Kids(u32, Items<NeighbourRead>, Items<NeighbourRead>),
    /// A fold over the kids of this child: its start, and its step at each kid.
    Fold(u32, Items<NeighbourRead>, Items<NeighbourRead>),
    /// A rule that reads elsewhere too.
    Far,
}

/// What each rule reads of neighbours, by the rule's number.
pub fn neighbour_parts(
    alloc: Global,
    places: &[u32],
    tables: &ReadTables,
    checked: &Checked,
) -> Result<Vec<NeighbourParts>, AllocError>
    requires places { AreAttributePlaces (meant checked.now) places.now }
    requires tables { AreTables (meant checked.now) tables.now }
    ensures parts { IfOk result (λ v. AreNeighbourParts checked.now v.items) }
{
    let _lawful = checked.grammar();
    let rows = tables.parts.as_slice();
    let mut parts = Vec::new(alloc);
    for rule in 0..checked.rule_count() {
        let child = checked.rule(rule).child;
        parts.push(parts_of(alloc, places, child, &rows[rule as usize])?)?;
    }
    Ok(parts)
}

/// What a rule with these parts reads of neighbours, which is for the kids of this child, or for
/// the node itself.
fn parts_of(
    alloc: Global,
    places: &[u32],
    child: Option<u32>,
    parts: &RuleParts,
) -> Result<NeighbourParts, AllocError>
    ensures parts { IfOk result (λ p. p ≡ neighbour_parts_of places.now child (parts_meant parts.now)) }
{
    match parts {
        RuleParts::Plain(reads) => match child {
            None => own_parts(alloc, places, reads.as_slice()),
            Some(of) => kids_parts(alloc, places, of, reads.as_slice(), false, reads.as_slice()),
        },
        RuleParts::FirstThen(first, later) => match child {
            None => Ok(NeighbourParts::Far),
            Some(of) => kids_parts(alloc, places, of, first.as_slice(), true, later.as_slice()),
        },
        RuleParts::FoldOver(over, start, step) => {
            fold_parts(alloc, places, *over, start.as_slice(), step.as_slice())
        }
    }
}

fn own_parts(
    alloc: Global,
    places: &[u32],
    reads: &[PartRead],
) -> Result<NeighbourParts, AllocError>
    ensures parts { IfOk result (λ p.
        p ≡ own_parts (neighbour_list places.now None false (map read_meant reads.now))) }
{
    match neighbour_list(alloc, places, None, false, reads)? {
        Some(reads) => Ok(NeighbourParts::Own(reads)),
        None => Ok(NeighbourParts::Far),
    }
}

/// Those of a rule for the kids of a child; whether its part for later kids is another than that
/// for the first.
fn kids_parts(
    alloc: Global,
    places: &[u32],
    child: u32,
    first: &[PartRead],
    is_later: bool,
    later: &[PartRead],
) -> Result<NeighbourParts, AllocError>
    ensures parts { IfOk result (λ p. p ≡ kids_parts child
        (neighbour_list places.now (Some child) false (map read_meant first.now))
        (neighbour_list places.now (Some child) is_later (map read_meant later.now))) }
{
    let first = neighbour_list(alloc, places, Some(child), false, first)?;
    let later = neighbour_list(alloc, places, Some(child), is_later, later)?;
    match (first, later) {
        (Some(first), Some(later)) => Ok(NeighbourParts::Kids(child, first, later)),
        _ => Ok(NeighbourParts::Far),
    }
}

fn fold_parts(
    alloc: Global,
    places: &[u32],
    child: u32,
    start: &[PartRead],
    step: &[PartRead],
) -> Result<NeighbourParts, AllocError>
    ensures parts { IfOk result (λ p. p ≡ fold_parts child
        (neighbour_list places.now None false (map read_meant start.now))
        (neighbour_list places.now (Some child) false (map read_meant step.now))) }
{
    let start = neighbour_list(alloc, places, None, false, start)?;
    let step = neighbour_list(alloc, places, Some(child), false, step)?;
    match (start, step) {
        (Some(start), Some(step)) => Ok(NeighbourParts::Fold(child, start, step)),
        _ => Ok(NeighbourParts::Far),
    }
}
