//! The chain of passes.

ghost use Rattle.std.specs.Prelude.{◌≡◌, ◌⊎◌, ◌↔◌, ◌≢◌, ◌<◌, ℕ, [], ◌∷◌, IfOk, Contains};
ghost use Rattle.std.specs.FinSet as set;
ghost use Rattle.ftl_model.specs.layout.AttributeGrammar.{AttributeGrammar};
ghost use Rattle.ftl_order.specs.orders.Lawful.{IsLawful};
ghost use Rattle.ftl_order.specs.orders.Schedule.{entries};
ghost use Rattle.ftl_order.specs.automatic.Automatic.{IsChain};
ghost use Rattle.ftl_scheduler.specs.largest_sets.Rows.{Has};
ghost use Rattle.ftl_schedule.specs.stages.Stages.{stages_of};
ghost use Rattle.ftl_scheduler.specs.outcomes.ConstraintRows.{AreTablesOf, AreUsable, HasComputed};
ghost use Rattle.ftl_scheduler.specs.outcomes.ConstraintRows.{IsRowOf};

use crate::outcomes::next::{Tables, next_pass};
use ftl_schedule::{Pass, Schedule, Stage};
use lane_rows::BitRow;
use sqlite_items::Items;
use std::alloc::{AllocError, Global};

/// The passes one after the other, each in a stage of its own, until nothing can be taken; and what
/// they take.
pub fn find_passes(
    alloc: Global,
    tables: &Tables,
    size: u32,
    all: &BitRow,
) -> Result<(Schedule, BitRow), AllocError>
    requires usable { AreUsable tables.now all.now size }
    ensures chain { (g : AttributeGrammar) → IsLawful g → AreTablesOf g tables.now
        → HasComputed g all.now → IfOk result (λ found. IsChain g (stages_of found.0)) }
    ensures taken { IfOk result (λ found. IsRowOf (entries (stages_of found.0)) found.1) }
{
    let mut done = BitRow::empty();
    let mut stages = Vec::new(alloc);
    loop {
        let pass = next_pass(alloc, tables, size, all, &done)?;
        if pass.attrs.is_empty() {
            let stages = Items::from_vec(stages);
            return Ok((Schedule { stages }, done));
        }
        add_all(pass.attrs.as_slice(), &mut done);
        stages.push(stage_of(alloc, pass)?)?;
    }
}

// A stage of one pass.
fn stage_of(alloc: Global, pass: Pass) -> Result<Stage, AllocError>
    ensures one { IfOk result (λ stage. stage.passes ≡ pass ∷ []) }
{
    let mut passes = Vec::new(alloc);
    passes.push(pass)?;
    Ok(Stage {
        passes: Items::from_vec(passes),
    })
}

// Adds each of them.
fn add_all(attrs: &[u32], row: &mut BitRow)
    requires few { (a : ℕ) → Contains attrs.now a → a < 2048 }
    ensures both { (b : ℕ) → Has row.new b ↔ (Has row.old b ⊎ Contains attrs.now b) }
{
    for &attr in attrs {
        row.put(attr);
    }
}
