//! The first read whose writer a schedule with nests doesn't have earlier.

ghost use Rattle.std.specs.Prelude.{◌≡◌, ◌<◌, length, if◌then◌else◌, None, Some};
ghost use Rattle.ftl_order.specs.orders.Ordered.{visit_place};
ghost use Rattle.ftl_meaning.specs.faults.Checked.{all_rules};
ghost use Rattle.ftl_order.specs.dependencies.DepReads.{rule_reads};
ghost use Rattle.ftl_deps.specs.reads.DepRows.{dep_rows};
ghost use Rattle.ftl_deps.specs.reads.Meant.{meant};
ghost use Rattle.ftl_order.specs.faults.FirstFault.{fault_by};
ghost use Rattle.ftl_order.specs.declared.faults.fault.VerifyFault.TheVariants as fault;
ghost use Rattle.ftl_schedule.specs.check.RuleAt.{read_at, rule_at};
ghost use Rattle.ftl_nests.specs.Nests.{nest_placing_of};
ghost use Rattle.ftl_regions.specs.pairs.NestReads.{first_refused, is_nest_ordered};
ghost use Rattle.ftl_regions.specs.pairs.NestReads.{refused_reads, refused_writer};
ghost use Rattle.ftl_nest_check.specs.stages.Nested.{nests_of};

use crate::places::PlacedNests;
use ftl_checked::Checked;
use ftl_deps::DepTable;
use ftl_order::{DepRead, VerifyFault};
use ftl_schedule::check::standing;
use ftl_schedule::{read_count, read_of};

/// The first read by number of the rule and in the order of its text whose writer the schedule
/// doesn't have earlier.
#[tactic(auto, using(crate::proofs::check::NestRules::rule_steps))]
pub(crate) fn first_refused(
    checked: &Checked,
    deps: &DepTable,
    placed: &PlacedNests,
) -> Option<VerifyFault>
    requires table { deps.now ≡ dep_rows (meant checked.now) }
    ensures fault { result
        ≡ first_refused (meant checked.now) (nest_placing_of (nests_of placed.now)) }
{
    let _ = checked.grammar();
    for rule in 0..checked.rule_count() {
        if let Some(fault) = refused_reads(checked, deps, placed, rule) {
            return Some(fault);
        }
    }
    None
}

// The first of a rule's reads whose writer the schedule doesn't have earlier.
fn refused_reads(
    checked: &Checked,
    deps: &DepTable,
    placed: &PlacedNests,
    rule: u32,
) -> Option<VerifyFault>
    requires table { deps.now ≡ dep_rows (meant checked.now) }
    requires within { rule < length (all_rules checked.now.grammar) }
    ensures fault { result
        ≡ refused_reads (meant checked.now) (nest_placing_of (nests_of placed.now))
        (rule, rule_at (meant checked.now) rule) }
{
    let count = read_count(checked, deps, rule);
    for place in 0..count {
        if let Some(fault) = read_fault(checked, deps, placed, rule, place) {
            return Some(fault);
        }
    }
    None
}

// The fault of one read: by the first writer, as all writers are earlier or none.
fn read_fault(
    checked: &Checked,
    deps: &DepTable,
    placed: &PlacedNests,
    rule: u32,
    place: u32,
) -> Option<VerifyFault>
    requires table { deps.now ≡ dep_rows (meant checked.now) }
    requires within { rule < length (all_rules checked.now.grammar) }
    requires place { place < length (rule_reads (meant checked.now)
        (rule_at (meant checked.now) rule)) }
    ensures fault { result ≡ fault_by rule (refused_writer (meant checked.now)
        (nest_placing_of (nests_of placed.now)) (rule_at (meant checked.now) rule)
        (read_at (rule_reads (meant checked.now) (rule_at (meant checked.now) rule)) place)) }
{
    let _ = checked.grammar();
    let read = read_of(checked, deps, rule, place);
    match deps.first_writer(rule, place) {
        Some(writer) => fault_of(checked, placed, read, writer, rule),
        None => None,
    }
}

// The fault of a read by this writer, unless the schedule has it earlier.
fn fault_of(
    checked: &Checked,
    placed: &PlacedNests,
    read: DepRead,
    writer: u32,
    reader: u32,
) -> Option<VerifyFault>
    requires writer { writer < length (all_rules checked.now.grammar) }
    requires reader { reader < length (all_rules checked.now.grammar) }
    ensures fault { result
        ≡ (if is_nest_ordered (nest_placing_of (nests_of placed.now)) read
        (visit_place (meant checked.now) (rule_at (meant checked.now) writer))
        (visit_place (meant checked.now) (rule_at (meant checked.now) reader))
        then None else Some (fault.Unordered reader writer)) }
{
    if placed.is_ordered(read, standing(checked, writer), standing(checked, reader)) {
        None
    } else {
        Some(VerifyFault::Unordered { reader, writer })
    }
}
