//! The first read that is not ordered.
ghost use Rattle.std.specs.Prelude.{◌≡◌, ◌<◌, ℕ, None, length, IfSome};
ghost use Rattle.ftl_deps.specs.reads.DepRows.{dep_rows};
ghost use Rattle.ftl_deps.specs.reads.Meant.{meant};
ghost use Rattle.ftl_example.specs.pairs.FirstPlace.{read_count};
ghost use Rattle.ftl_meaning.specs.faults.Checked.{all_rules};
ghost use Rattle.ftl_nest_check.specs.stages.Nested.{nests_of};
ghost use Rattle.ftl_example.specs.nests.pairs.FirstRefused.{HasNone, IsFirstPlace};
ghost use Rattle.ftl_example.specs.nests.pairs.FirstRefused.{IsFirstRead, late_writer};
ghost use Rattle.ftl_nests.specs.Nests.{nest_placing_of};
ghost use Rattle.ftl_order.specs.orders.Ordered.{visit_place};
ghost use Rattle.ftl_regions.specs.pairs.NestReads.{is_nest_ordered};
ghost use Rattle.ftl_schedule.specs.check.RuleAt.{rule_at};

use crate::pairs::FirstRead;
use ftl_checked::Checked;
use ftl_deps::DepTable;
use ftl_nest_check::places::PlacedNests;
use ftl_order::DepRead;
use ftl_schedule::check::standing;
use ftl_schedule::{read_count, read_of};

/// The first read by number of the rule and in the order of its text whose writer the schedule
/// doesn't have earlier.
#[tactic(auto, using(ftl_schedule::proofs::check::RuleCount::rules_counted))]
pub(crate) fn first_read(
    checked: &Checked,
    deps: &DepTable,
    placed: &PlacedNests,
) -> Option<FirstRead>
    requires table { deps.now ≡ dep_rows (meant checked.now) }
    ensures found { IfSome result (λ f. IsFirstRead (meant checked.now)
        (nest_placing_of (nests_of placed.now)) f.reader f.place f.writer) }
    ensures none { result ≡ None → (m : ℕ) → m < length (meant checked.now).rules
        → HasNone (meant checked.now) (nest_placing_of (nests_of placed.now)) m
        (read_count (meant checked.now) m) }
{
    let _ = checked.grammar();
    for rule in 0..checked.rule_count() {
        if let Some(found) = first_in_rule(checked, deps, placed, rule) {
            return Some(found);
        }
    }
    None
}

// The first of a rule's reads.
fn first_in_rule(
    checked: &Checked,
    deps: &DepTable,
    placed: &PlacedNests,
    rule: u32,
) -> Option<FirstRead>
    requires table { deps.now ≡ dep_rows (meant checked.now) }
    requires within { rule < length (all_rules checked.now.grammar) }
    ensures rule { IfSome result (λ f. f.reader ≡ rule) }
    ensures found { IfSome result (λ f. IsFirstPlace (meant checked.now)
        (nest_placing_of (nests_of placed.now)) rule f.place f.writer) }
    ensures none { result ≡ None → HasNone (meant checked.now)
        (nest_placing_of (nests_of placed.now)) rule (read_count (meant checked.now) rule) }
{
    let count = read_count(checked, deps, rule);
    for place in 0..count {
        if let Some(writer) = writer_too_late(checked, deps, placed, rule, place) {
            return Some(FirstRead {
                reader: rule,
                place,
                writer,
            });
        }
    }
    None
}

// The first writer of a read that the schedule doesn't have earlier.
fn writer_too_late(
    checked: &Checked,
    deps: &DepTable,
    placed: &PlacedNests,
    rule: u32,
    place: u32,
) -> Option<u32>
    requires table { deps.now ≡ dep_rows (meant checked.now) }
    requires within { rule < length (all_rules checked.now.grammar) }
    requires place { place < read_count (meant checked.now) rule }
    ensures writer { result ≡ late_writer (meant checked.now)
        (nest_placing_of (nests_of placed.now)) rule place }
{
    let _ = checked.grammar();
    let read = read_of(checked, deps, rule, place);
    match deps.first_writer(rule, place) {
        Some(writer) => {
            if is_ordered(checked, placed, read, writer, rule) {
                None
            } else {
                Some(writer)
            }
        }
        None => None,
    }
}

// Whether the schedule has the writer of a read earlier.
fn is_ordered(
    checked: &Checked,
    placed: &PlacedNests,
    read: DepRead,
    writer: u32,
    reader: u32,
) -> bool
    requires writer { writer < length (all_rules checked.now.grammar) }
    requires reader { reader < length (all_rules checked.now.grammar) }
    ensures ordered { result ≡ is_nest_ordered (nest_placing_of (nests_of placed.now)) read
        (visit_place (meant checked.now) (rule_at (meant checked.now) writer))
        (visit_place (meant checked.now) (rule_at (meant checked.now) reader)) }
{
    placed.is_ordered(read, standing(checked, writer), standing(checked, reader))
}
