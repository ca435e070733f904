//! What is found of a grammar.

ghost use Rattle.std.specs.Prelude.{◌≡◌, ◌<◌, ◌≤◌, ◌&&◌, not, IfOk};
ghost use Rattle.std.specs.FinSet as set;
ghost use Rattle.ftl_model.specs.layout.AttributeGrammar.{AttributeGrammar};
ghost use Rattle.ftl_order.specs.orders.Lawful.{IsLawful};
ghost use Rattle.ftl_scheduler.specs.outcomes.ConstraintRows.{AreTablesOf, AreUsable, HasComputed};
ghost use Rattle.ftl_scheduler.specs.outcomes.Outcomes.{IsOutcome, Passes};

use crate::outcomes::next::Tables;
use crate::outcomes::passes::find_passes;
use ftl_schedule::{AttrList, Schedule};
use lane_rows::BitRow;
use sqlite_items::Items;
use std::alloc::{AllocError, Global};

/// The automatic schedule, or where there is none.
#[derive(Drop)]
pub enum Outcome {
    /// The automatic schedule.
    Found(Schedule),
    /// There is none: after all passes these attributes are left.
    Stuck(AttrList),
}

/// The automatic schedule of the grammars that the rows are of, or the attributes that are left.
pub fn find_outcome(
    alloc: Global,
    tables: &Tables,
    size: u32,
    all: &BitRow,
) -> Result<Outcome, AllocError>
    requires usable { AreUsable tables.now all.now size }
    ensures outcome { (g : AttributeGrammar) → IsLawful g → AreTablesOf g tables.now
        → HasComputed g all.now → IfOk result (IsOutcome g) }
{
    let (schedule, taken) = find_passes(alloc, tables, size, all)?;
    let left = left_of(alloc, size, all, &taken)?;
    if left.len() == 0 {
        Ok(Outcome::Found(schedule))
    } else {
        Ok(Outcome::Stuck(left))
    }
}

// The attributes that were not taken, by number.
fn left_of(alloc: Global, size: u32, all: &BitRow, taken: &BitRow) -> Result<AttrList, AllocError>
    requires few { size ≤ 2048 }
    ensures left { IfOk result (λ left. Passes
        (λ a. set.contains all.now a && not (set.contains taken.now a)) size left) }
{
    let mut left = Vec::new(alloc);
    for attr in 0..size {
        if is_left(all, taken, attr) {
            left.push(attr)?;
        }
    }
    Ok(Items::from_vec(left))
}

fn is_left(all: &BitRow, taken: &BitRow, attr: u32) -> bool
    requires within { attr < 2048 }
    ensures left { result ≡ (set.contains all.now attr && not (set.contains taken.now attr)) }
{
    all.has(attr) && !taken.has(attr)
}
