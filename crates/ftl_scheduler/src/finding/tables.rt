//! The rows of constraints of each kind of pass.

ghost use Rattle.std.specs.Prelude.{◌≡◌, ◌<◌, ◌+◌, length, IfOk};
ghost use Rattle.ftl_meaning.specs.faults.Checked.{all_rules};
ghost use Rattle.ftl_order.specs.dependencies.DepReads.{rule_reads};
ghost use Rattle.ftl_deps.specs.reads.DepRows.{dep_rows};
ghost use Rattle.ftl_deps.specs.reads.Meant.{meant};
ghost use Rattle.ftl_schedule.specs.stages.Stages.{kind_of};
ghost use Rattle.ftl_schedule.specs.check.RuleAt.{rule_at};
ghost use Rattle.ftl_scheduler.specs.outcomes.ConstraintRows.{AreTablesOf, AreUsable, HasComputed};
ghost use Rattle.ftl_scheduler.specs.finding.Entered.{AreEnteredTo};

use crate::finding::computed::computed_row;
use crate::finding::constraint::constraint_of;
use crate::finding::enter::{enter, no_constraints};
use crate::largest_sets::Constraints;
use crate::outcomes::Tables;
use ftl_checked::Checked;
use ftl_deps::DepTable;
use ftl_schedule::check::standing;
use ftl_schedule::{PassKind, attribute_count, read_count, read_of};
use lane_rows::BitRow;
use std::alloc::{AllocError, Global};

/// What the attributes of a checked grammar need in a pass of each kind, and which of them rules
/// compute.
pub fn tables_of(
    alloc: Global,
    checked: &Checked,
    deps: &DepTable,
) -> Result<(Tables, BitRow), AllocError>
    requires table { deps.now ≡ dep_rows (meant checked.now) }
    ensures tables { IfOk result (λ t. AreTablesOf (meant checked.now) t.0) }
    ensures usable { IfOk result (λ t. AreUsable t.0 t.1 (meant checked.now).attribute_count) }
    ensures computed { IfOk result (λ t. HasComputed (meant checked.now) t.1) }
{
    let _ = checked.grammar();
    let tables = Tables {
        down: constraints_of_kind(alloc, checked, deps, PassKind::TopDown)?,
        up: constraints_of_kind(alloc, checked, deps, PassKind::BottomUp)?,
        in_order: constraints_of_kind(alloc, checked, deps, PassKind::InOrder)?,
    };
    Ok((tables, computed_row(checked)))
}

// What they need in a pass of this kind.
fn constraints_of_kind(
    alloc: Global,
    checked: &Checked,
    deps: &DepTable,
    kind: PassKind,
) -> Result<Constraints, AllocError>
    requires table { deps.now ≡ dep_rows (meant checked.now) }
    ensures entered { IfOk result (λ n. AreEnteredTo (meant checked.now) (kind_of kind) n
        (length (meant checked.now).rules) 0) }
{
    let _ = checked.grammar();
    let mut constraints = no_constraints(alloc, attribute_count(checked))?;
    for rule in 0..checked.rule_count() {
        enter_reads(checked, deps, kind, rule, &mut constraints);
    }
    Ok(constraints)
}

// Enters what a rule asks.
fn enter_reads(
    checked: &Checked,
    deps: &DepTable,
    kind: PassKind,
    rule: u32,
    constraints: &mut Constraints,
)
    requires table { deps.now ≡ dep_rows (meant checked.now) }
    requires within { rule < length (all_rules checked.now.grammar) }
    requires entered { AreEnteredTo (meant checked.now) (kind_of kind) constraints.old rule 0 }
    ensures entered { AreEnteredTo (meant checked.now) (kind_of kind) constraints.new (rule + 1) 0 }
{
    let count = read_count(checked, deps, rule);
    for place in 0..count {
        enter_read(checked, deps, kind, rule, place, constraints);
    }
}

// Enters what a rule asks by one of its reads.
fn enter_read(
    checked: &Checked,
    deps: &DepTable,
    kind: PassKind,
    rule: u32,
    place: u32,
    constraints: &mut Constraints,
)
    requires table { deps.now ≡ dep_rows (meant checked.now) }
    requires within { rule < length (all_rules checked.now.grammar) }
    requires place { place < length (rule_reads (meant checked.now)
        (rule_at (meant checked.now) rule)) }
    requires entered { AreEnteredTo (meant checked.now) (kind_of kind) constraints.old rule place }
    ensures entered { AreEnteredTo (meant checked.now) (kind_of kind) constraints.new rule
        (place + 1) }
{
    let _ = checked.grammar();
    match deps.first_writer(rule, place) {
        Some(writer) => {
            let read = read_of(checked, deps, rule, place);
            let x = standing(checked, writer);
            let y = standing(checked, rule);
            let constraint = constraint_of(kind, read, x, y);
            enter(
                constraints,
                attribute_count(checked),
                constraint,
                x.attr,
                y.attr,
            );
        }
        None => {}
    }
}
