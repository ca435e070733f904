//! The phases of all items of a stage.
ghost use Rattle.std.specs.Prelude.{◌≡◌, ◌<◌, ◌≤◌, ◌++◌, length, IfOk, Some};
ghost use Rattle.ftl_cursors.specs.items.RowsCut.{is_whole_in};
ghost use Rattle.ftl_cursors.specs.items.StageItems.{cuts_in, passes_in, tree_in, tree_of};
ghost use Rattle.ftl_schedule.specs.stages.Stages.{kind_of};
ghost use Rattle.ftl_plan.specs.phases.StagePhases.{FitItems, grammar_in, grammar_of_items};
ghost use Rattle.ftl_plan.specs.phases.StagePhases.{phases_of_pass, phases_to};
ghost use Rattle.ftl_cells.specs.declared.work_phases.phase.Phases.{Phases};

use crate::phases::item::phase_of;
use ftl_cells::{Phase, Phases};
use ftl_cursors::{ItemRows, StageItems};
use ftl_schedule::PassKind;
use std::alloc::{AllocError, Global};

// Below so many cells ranges cost more than they save.
const FEWEST_CELLS: u32 = 4096;

/// The phases of the items of a stage for so many ranges of its cells, or None where ranges don't
/// pay.
pub fn stage_phases(
    alloc: Global,
    items: StageItems<'_>,
    ranges: u32,
) -> Result<Option<Phases>, AllocError>
    requires some { 0 < ranges }
    ensures phases { IfOk result (λ r. (t : Phases) → r ≡ Some t → FitItems items.entry t) }
{
    let cells = items.rows.tree.instance_count();
    if cells < FEWEST_CELLS {
        return Ok(None);
    }
    let size = cells / ranges + 1;
    let Counted { phases, visits } = counted_phases(alloc, items, size)?;
    if !is_worth(items, visits) {
        return Ok(None);
    }
    Ok(Some(Phases {
        phases,
        ranges,
        size,
    }))
}

// Phases, and how many visits the items in ranges make.
#[derive(Drop)]
struct Counted {
    phases: Vec<Phase>,
    visits: u64,
}

// At least half of all visits are made in ranges.
fn is_worth(items: StageItems<'_>, visits: u64) -> bool {
    let nodes = u64::from(items.rows.tree.node_count());
    let all = nodes.saturating_mul(items.passes.len() as u64);
    all <= visits.saturating_mul(2)
}

// The phases pass by pass, where ranges have so many cells.
fn counted_phases(alloc: Global, items: StageItems<'_>, size: u32) -> Result<Counted, AllocError>
    requires some { 0 < size }
    requires few { size ≤ 33554433 }
    ensures phases { IfOk result (λ v. v.phases.items ≡ phases_to (grammar_of_items items.entry)
        (cuts_in items.entry) (tree_of items.entry) size (length (passes_in items.entry))) }
{
    let mut phases = Vec::with_capacity(alloc, items.item_count() as usize)?;
    let mut visits: u64 = 0;
    let count = items.passes.len() as u32;
    for pass in 0..count {
        let rows = items.rows_of(pass);
        let kind = items.passes[pass as usize].kind;
        visits = visits.saturating_add(push_pass(rows, kind, size, &mut phases)?);
    }
    Ok(Counted { phases, visits })
}

// Adds the phases of a pass; tells how many visits those in ranges make.
fn push_pass(
    rows: &ItemRows<'_>,
    kind: PassKind,
    size: u32,
    phases: &mut Vec<Phase>,
) -> Result<u64, AllocError>
    requires some { 0 < size }
    requires few { size ≤ 33554433 }
    ensures phases { IfOk result (λ v. phases.new.items ≡ phases.old.items ++ phases_of_pass
        (grammar_in rows.now) (is_whole_in rows.now) (tree_in rows.now) size (kind_of kind)) }
{
    let _nodes = rows.tree.node_count();
    let mut visits: u64 = 0;
    for item in 0..rows.count(kind) {
        let node = rows.first(kind, item);
        let phase = phase_of(rows, kind, node, size);
        if let Phase::Range(_) = phase {
            visits = visits.saturating_add(u64::from(rows.node_count(node)));
        }
        phases.push(phase)?;
    }
    Ok(visits)
}
