//! The first read whose writer the schedule doesn't have earlier.

ghost use Rattle.std.specs.Prelude.{◌≡◌, ◌<◌, length, if◌then◌else◌, None, Some};
ghost use Rattle.ftl_order.specs.orders.Ordered.{visit_place};
ghost use Rattle.ftl_order.specs.orders.Schedule.{placing_of};
ghost use Rattle.ftl_schedule.specs.stages.Stages.{stages_of};
ghost use Rattle.ftl_meaning.specs.faults.Checked.{all_rules};
ghost use Rattle.ftl_order.specs.dependencies.DepReads.{rule_reads};
ghost use Rattle.ftl_deps.specs.reads.DepRows.{dep_rows};
ghost use Rattle.ftl_deps.specs.reads.Meant.{meant};
ghost use Rattle.ftl_order.specs.faults.FirstFault.{fault_by, first_unordered, reads_fault};
ghost use Rattle.ftl_order.specs.faults.FirstFault.{unordered_writer};
ghost use Rattle.ftl_order.specs.faults.OrderedReads.{is_ordered_read};
ghost use Rattle.ftl_order.specs.declared.faults.fault.VerifyFault.TheVariants as fault;
ghost use Rattle.ftl_schedule.specs.places.Standing.{visit_place_meant};
ghost use Rattle.ftl_schedule.specs.check.RuleAt.{read_at, rule_at};

use crate::check::kinds::block_of;
use crate::places::{Placed, Standing};
use ftl_checked::Checked;
use ftl_deps::DepTable;
use ftl_order::{DepRead, VerifyFault};

/// The first read by number of the rule and in the order of its text whose writer the schedule
/// doesn't have earlier.
#[tactic(auto, using(crate::proofs::check::RuleCount::rule_steps))]
pub(crate) fn first_unordered(
    checked: &Checked,
    deps: &DepTable,
    placed: &Placed,
) -> Option<VerifyFault>
    requires table { deps.now ≡ dep_rows (meant checked.now) }
    ensures fault { result
        ≡ first_unordered (meant checked.now) (placing_of (stages_of placed.now)) }
{
    let _ = checked.grammar();
    for rule in 0..checked.rule_count() {
        if let Some(fault) = reads_fault(checked, deps, placed, rule) {
            return Some(fault);
        }
    }
    None
}

// The first of a rule's reads whose writer the schedule doesn't have earlier.
fn reads_fault(
    checked: &Checked,
    deps: &DepTable,
    placed: &Placed,
    rule: u32,
) -> Option<VerifyFault>
    requires table { deps.now ≡ dep_rows (meant checked.now) }
    requires within { rule < length (all_rules checked.now.grammar) }
    ensures fault { result ≡ reads_fault (meant checked.now) (placing_of (stages_of placed.now))
        (rule, rule_at (meant checked.now) rule) }
{
    let count = read_count(checked, deps, rule);
    for place in 0..count {
        if let Some(fault) = read_fault(checked, deps, placed, rule, place) {
            return Some(fault);
        }
    }
    None
}

/// How many reads a rule has.
pub fn read_count(checked: &Checked, deps: &DepTable, rule: u32) -> u32
    requires table { deps.now ≡ dep_rows (meant checked.now) }
    requires within { rule < length (all_rules checked.now.grammar) }
    ensures count { result ≡ length (rule_reads (meant checked.now)
        (rule_at (meant checked.now) rule)) }
{
    let _ = checked.grammar();
    deps.reads(rule).len() as u32
}

// The fault of one read: by the first writer, as all writers are earlier or none.
fn read_fault(
    checked: &Checked,
    deps: &DepTable,
    placed: &Placed,
    rule: u32,
    place: u32,
) -> Option<VerifyFault>
    requires table { deps.now ≡ dep_rows (meant checked.now) }
    requires within { rule < length (all_rules checked.now.grammar) }
    requires place { place < length (rule_reads (meant checked.now)
        (rule_at (meant checked.now) rule)) }
    ensures fault { result ≡ fault_by rule (unordered_writer (meant checked.now)
        (placing_of (stages_of placed.now)) (rule_at (meant checked.now) rule)
        (read_at (rule_reads (meant checked.now) (rule_at (meant checked.now) rule)) place)) }
{
    let _ = checked.grammar();
    let read = read_of(checked, deps, rule, place);
    match deps.first_writer(rule, place) {
        Some(writer) => fault_of(checked, placed, read, writer, rule),
        None => None,
    }
}

/// The read at this place of a rule.
pub fn read_of(checked: &Checked, deps: &DepTable, rule: u32, place: u32) -> DepRead
    requires table { deps.now ≡ dep_rows (meant checked.now) }
    requires within { rule < length (all_rules checked.now.grammar) }
    requires place { place < length (rule_reads (meant checked.now)
        (rule_at (meant checked.now) rule)) }
    ensures read { result ≡ read_at (rule_reads (meant checked.now)
        (rule_at (meant checked.now) rule)) place }
{
    let _ = checked.grammar();
    deps.reads(rule)[place as usize]
}

// The fault of a read by this writer, unless the schedule has it earlier.
fn fault_of(
    checked: &Checked,
    placed: &Placed,
    read: DepRead,
    writer: u32,
    reader: u32,
) -> Option<VerifyFault>
    requires writer { writer < length (all_rules checked.now.grammar) }
    requires reader { reader < length (all_rules checked.now.grammar) }
    ensures fault { result ≡ (if is_ordered_read (meant checked.now)
        (placing_of (stages_of placed.now)) read (rule_at (meant checked.now) writer)
        (rule_at (meant checked.now) reader) then None else Some (fault.Unordered reader writer)) }
{
    if placed.is_ordered(read, standing(checked, writer), standing(checked, reader)) {
        None
    } else {
        Some(VerifyFault::Unordered { reader, writer })
    }
}

/// Where a rule stands in the visit of a node.
pub fn standing(checked: &Checked, rule: u32) -> Standing
    requires within { rule < length (all_rules checked.now.grammar) }
    ensures place { visit_place_meant result
        ≡ visit_place (meant checked.now) (rule_at (meant checked.now) rule) }
{
    let _ = checked.grammar();
    let info = checked.rule(rule);
    match info.child {
        Some(child) => Standing {
            attr: info.attr,
            block: 1,
            child,
        },
        None => Standing {
            attr: info.attr,
            block: block_of(checked, info.attr),
            child: 0,
        },
    }
}
