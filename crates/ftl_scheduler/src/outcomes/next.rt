//! The next pass after what is done.

ghost use Rattle.std.specs.Prelude.{◌≡◌, ℕ, List, IfOk};
ghost use Rattle.ftl_model.specs.layout.AttributeGrammar.{AttributeGrammar};
ghost use Rattle.ftl_order.specs.orders.Lawful.{IsLawful};
ghost use Rattle.ftl_order.specs.automatic.Automatic.{IsNext};
ghost use Rattle.ftl_scheduler.specs.largest_sets.Rows.{AreSized, AreWhole};
ghost use Rattle.ftl_schedule.specs.stages.Stages.{pass_of};
ghost use Rattle.ftl_scheduler.specs.outcomes.ConstraintRows.{AreNew, AreTablesOf, AreUsable};
ghost use Rattle.ftl_scheduler.specs.outcomes.ConstraintRows.{HasComputed, IsRowOf};

use crate::largest_sets::{Constraints, list_of};
use ftl_schedule::{Pass, PassKind};
use lane_rows::BitRow;
use std::alloc::{AllocError, Global};

/// What the attributes of a grammar need in a pass of each kind.
#[derive(Drop)]
pub struct Tables {
    pub down: Constraints,
    pub up: Constraints,
    pub in_order: Constraints,
}

/// The pass that takes the most of what is left; it is empty where nothing can be taken.
pub fn next_pass(
    alloc: Global,
    tables: &Tables,
    size: u32,
    all: &BitRow,
    done: &BitRow,
) -> Result<Pass, AllocError>
    requires usable { AreUsable tables.now all.now size }
    ensures next { (g : AttributeGrammar) (list : List ℕ) → IsLawful g → AreTablesOf g tables.now
        → HasComputed g all.now → IsRowOf list done.now
        → IfOk result (λ pass. IsNext g list (pass_of pass)) }
    ensures new { IfOk result (λ pass. AreNew all.now done.now pass.attrs) }
{
    let down = list_of(alloc, &tables.down, size, all, done)?;
    let up = list_of(alloc, &tables.up, size, all, done)?;
    if down.len() < up.len() {
        return Ok(Pass {
            kind: PassKind::BottomUp,
            attrs: up,
        });
    }
    if !down.is_empty() {
        return Ok(Pass {
            kind: PassKind::TopDown,
            attrs: down,
        });
    }
    let attrs = list_of(alloc, &tables.in_order, size, all, done)?;
    Ok(Pass {
        kind: PassKind::InOrder,
        attrs,
    })
}
