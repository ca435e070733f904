//! The order of attributes by what they need earlier, and those that can't stay.

ghost use Rattle.std.specs.Prelude.{◌≡◌, ◌<◌, ◌&&◌, ◌||◌, not, ℕ, true, false, IfOk, OnOk, filter};
ghost use Rattle.std.specs.Prelude.{Contains};
ghost use Rattle.std.specs.FinSet as set;
ghost use Rattle.lane_rows.specs.Matrix.{entry};
ghost use Rattle.ftl_scheduler.specs.largest_sets.Rows.{AreSized, AreWhole, Has};
ghost use Rattle.ftl_scheduler.specs.largest_sets.LargestList.{IsLargestList};
ghost use Rattle.ftl_scheduler.specs.largest_sets.Turns.{Turns, after, is_ready};
ghost use Rattle.ftl_scheduler.specs.largest_sets.Staying.{IsClosure, is_first};

use crate::largest_sets::constraints::Constraints;
use lane_rows::BitRow;
use sqlite_items::Items;
use std::alloc::{AllocError, Global};

/// The least list of the largest set of attributes that can be taken after what is done.
pub fn list_of(
    alloc: Global,
    constraints: &Constraints,
    size: u32,
    all: &BitRow,
    done: &BitRow,
) -> Result<Items<u32>, AllocError>
    requires sized { AreSized constraints.now all.now size }
    requires whole { AreWhole constraints.now all.now }
    ensures largest { IfOk result (λ list. IsLargestList constraints.now all.now done.now list) }
{
    let mut placed = copy_of(done);
    let turns = order(alloc, constraints, size, all, &mut placed)?;
    let first = first_leaving(constraints, size, all, done, &placed);
    let taken = taken_away(constraints, size, all, done, first);
    Ok(Items::from_vec(without(alloc, turns.as_slice(), &taken)?))
}

fn copy_of(row: &BitRow) -> BitRow
    ensures same { result ≡ row.now }
{
    let mut copy = BitRow::empty();
    copy.union_into(row);
    copy
}

// The attributes in order: each is the least that is ready, until none is. What is placed grows by
// them.
fn order(
    alloc: Global,
    constraints: &Constraints,
    size: u32,
    all: &BitRow,
    placed: &mut BitRow,
) -> Result<Vec<u32>, AllocError>
    requires sized { AreSized constraints.now all.now size }
    requires whole { AreWhole constraints.now all.now }
    ensures turns { IfOk result (λ xs. Turns constraints.now.earlier all.now placed.old xs.items) }
    ensures placed { IfOk result (λ xs. placed.new ≡ after placed.old xs.items) }
{
    let mut turns = Vec::new(alloc);
    let mut ready = ready_at_first(constraints, size, all, placed);
    while let Some(attr) = ready.first_missing(placed) {
        turns.push(attr)?;
        placed.put(attr);
        add_ready(constraints, size, all, placed, attr, &mut ready);
    }
    Ok(turns)
}

// Those that are ready.
fn ready_at_first(constraints: &Constraints, size: u32, all: &BitRow, placed: &BitRow) -> BitRow
    requires sized { AreSized constraints.now all.now size }
    ensures ready { (b : ℕ) → set.contains result b
        ≡ (set.contains all.now b && is_ready constraints.now.earlier placed.now b) }
{
    let mut ready = BitRow::empty();
    for attr in 0..size {
        if is_ready(constraints, size, all, placed, attr) {
            ready.put(attr);
        }
    }
    ready
}

// Whether the attribute is one whose earlier constraints are placed.
fn is_ready(constraints: &Constraints, size: u32, all: &BitRow, placed: &BitRow, attr: u32) -> bool
    requires sized { AreSized constraints.now all.now size }
    requires within { attr < 2048 }
    ensures ready { result
        ≡ (set.contains all.now attr && is_ready constraints.now.earlier placed.now attr) }
{
    let _ = size;
    all.has(attr) && constraints.earlier.row(attr).subset(placed)
}

// Adds those that are ready now that one is placed.
fn add_ready(
    constraints: &Constraints,
    size: u32,
    all: &BitRow,
    placed: &BitRow,
    attr: u32,
    ready: &mut BitRow,
)
    requires sized { AreSized constraints.now all.now size }
    requires within { attr < size }
    ensures ready { (b : ℕ) → set.contains ready.new b
        ≡ (set.contains ready.old b || (entry constraints.now.followers attr b
        && (set.contains all.now b && is_ready constraints.now.earlier placed.now b))) }
{
    let mut seen = BitRow::empty();
    while let Some(next) = constraints.followers.row(attr).first_missing(&seen) {
        seen.put(next);
        if is_ready(constraints, size, all, placed, next) {
            ready.put(next);
        }
    }
}

// Those that can't stay whatever else does: they have no place, or need what is not done.
fn first_leaving(
    constraints: &Constraints,
    size: u32,
    all: &BitRow,
    done: &BitRow,
    placed: &BitRow,
) -> BitRow
    requires sized { AreSized constraints.now all.now size }
    ensures first { (b : ℕ) → set.contains result b
        ≡ is_first constraints.now.late all.now done.now placed.now b }
{
    let mut first = BitRow::empty();
    for attr in 0..size {
        if leaves_first(constraints, size, all, done, placed, attr) {
            first.put(attr);
        }
    }
    first
}

// Whether the attribute has no place, or needs what is not done.
fn leaves_first(
    constraints: &Constraints,
    size: u32,
    all: &BitRow,
    done: &BitRow,
    placed: &BitRow,
    attr: u32,
) -> bool
    requires sized { AreSized constraints.now all.now size }
    requires within { attr < size }
    ensures first { result ≡ is_first constraints.now.late all.now done.now placed.now attr }
{
    let _ = size;
    all.has(attr) && !(placed.has(attr) && constraints.late.row(attr).subset(done))
}

// Those that can't stay, with those that use them, and what is done.
fn taken_away(
    constraints: &Constraints,
    size: u32,
    all: &BitRow,
    done: &BitRow,
    first: BitRow,
) -> BitRow
    requires sized { AreSized constraints.now all.now size }
    requires whole { AreWhole constraints.now all.now }
    requires first { (a : ℕ) → Has first a → Has all.now a }
    ensures closure { IsClosure constraints.now.users done.now first result }
{
    let mut leaving = first;
    let mut taken = copy_of(done);
    while let Some(attr) = leaving.first_missing(&taken) {
        taken.put(attr);
        leaving.union_into(constraints.users.row(attr));
    }
    taken
}

// The entries that are not in a row.
fn without(alloc: Global, attrs: &[u32], row: &BitRow) -> Result<Vec<u32>, AllocError>
    requires few { (a : ℕ) → Contains attrs.now a → a < 2048 }
    ensures left { IfOk result (λ left. left.items
        ≡ filter (λ a. not (set.contains row.now a)) attrs.now) }
{
    let mut left = Vec::new(alloc);
    for &attr in attrs {
        if !row.has(attr) {
            left.push(attr)?;
        }
    }
    Ok(left)
}
