//! The conditions on rules, and what their reads are by number.
ghost use Rattle.std.specs.Prelude.{◌≡◌, ◌++◌, [], ◌<◌, false, Some, length, map, IfOk};
ghost use Rattle.std.specs.List.{list_any};
ghost use Rattle.std.specs.Option.{is_none};
ghost use Rattle.ftl_checked.specs.declarations.FlatRules.{rule_in};
ghost use Rattle.ftl_meaning.specs.faults.Allowed.{leaf_of};
ghost use Rattle.ftl_meaning.specs.faults.Checked.{info_by};
ghost use Rattle.ftl_meaning.specs.faults.Counts.{HasSmallCounts};
ghost use Rattle.ftl_meaning.specs.faults.Finds.{FindsInfos};
ghost use Rattle.ftl_meaning.specs.faults.FirstFault.{bad_read, first_of, first_there, form_fault};
ghost use Rattle.ftl_meaning.specs.faults.FirstFault.{rule_fault, rule_faults, rule_name};
ghost use Rattle.ftl_meaning.specs.faults.FirstFault.{same_slot};
ghost use Rattle.ftl_meaning.specs.faults.FirstFault.{fault_if};
ghost use Rattle.ftl_checked.specs.grammars.Positions.{IsWithin};
ghost use Rattle.ftl_meaning.specs.faults.Numbering.{class_at};
ghost use Rattle.ftl_meaning.specs.faults.RuleForms.{form_of, slot_of};
ghost use Rattle.ftl_checked.specs.grammars.ReadNumbers.{leaf_in, leaves_in, part_leaves, parts_by};
ghost use Rattle.ftl_checked.specs.grammars.ReadNumbers.{rule_leaves};
ghost use Rattle.ftl_checked.specs.grammars.Slots.{IsFormIn, IsSlotIn, part_in, parts_in, slot_in};
ghost use Rattle.ftl_checked.specs.grammars.Slots.{slots_of};
ghost use Rattle.ftl_checked.specs.lookup.Tables.{tables_of};
ghost use Rattle.ftl_meaning.specs.declared.faults.fault.GrammarFault.TheVariants as fault;

use crate::declarations::FlatRule;
use crate::grammars::forms::{Part, RuleForm, form, slot};
use crate::grammars::numbered_read::{NumberedRead, PartReads, number_of};
use crate::grammars::slots::{RuleSlot, Ruled};
use crate::lookup::{Tables, name_of};
use ftl_grammar::{Grammar, Target};
use ftl_meaning::{GrammarFault, ReadRef, RuleInfo};
use sqlite_items::Items;
use std::alloc::Global;

/// What is known of rules, and what they read, in the order of their numbers.
#[derive(Drop)]
pub struct CheckedRules {
    pub infos: Items<RuleInfo>,
    pub reads: Items<Items<PartReads>>,
}

/// Looks at the rules of a class, and adds to `so_far` what is known of each and what it reads.
pub(crate) fn class_rules(
    alloc: Global,
    grammar: &Grammar,
    tables: &Tables,
    number: u32,
    rules: &[FlatRule<'_>],
    so_far: &mut CheckedRules,
) -> Result<Ruled, GrammarFault>
    requires small { HasSmallCounts grammar.now }
    requires tables { tables.now ≡ tables_of grammar.now }
    requires within { number < length grammar.now.classes }
    requires rules { map rule_in rules.now ≡ (class_at grammar.now number).rules }
    ensures finds { FindsInfos (first_there (rule_faults grammar.now number []
        (class_at grammar.now number).rules)) result }
    ensures slots { IfOk result (λ r. r
        ≡ slots_of grammar.now number (class_at grammar.now number).rules) }
    ensures infos { IfOk result (λ r. so_far.new.infos ≡ so_far.old.infos
        ++ map (λ r. info_by number (slot_of grammar.now number r.target))
        (class_at grammar.now number).rules) }
    ensures reads { IfOk result (λ r. map (map leaves_in) so_far.new.reads
        ≡ map (map leaves_in) so_far.old.reads
        ++ map (λ r. rule_leaves grammar.now (number, r)) (class_at grammar.now number).rules) }
{
    let mut ruled = Ruled::new(alloc);
    for rule in rules {
        let (slot, reads) = one_rule(alloc, grammar, tables, number, rule, &ruled)?;
        ruled.add(slot)?;
        so_far.infos.push(info_of(number, slot))?;
        so_far.reads.push(reads)?;
    }
    Ok(ruled)
}

fn info_of(number: u32, slot: RuleSlot) -> RuleInfo
    ensures info { result ≡ info_by number (Some (slot_in slot)) }
{
    match slot {
        RuleSlot::Own(attr) => RuleInfo {
            class: number,
            child: None,
            attr,
        },
        RuleSlot::Kid(child, attr) => RuleInfo {
            class: number,
            child: Some(child),
            attr,
        },
    }
}

/// Looks at one rule, where earlier ones have those slots, and gives its slot and what it reads.
fn one_rule(
    alloc: Global,
    grammar: &Grammar,
    tables: &Tables,
    number: u32,
    rule: &FlatRule<'_>,
    ruled: &Ruled,
) -> Result<(RuleSlot, Items<PartReads>), GrammarFault>
    requires small { HasSmallCounts grammar.now }
    requires tables { tables.now ≡ tables_of grammar.now }
    requires within { number < length grammar.now.classes }
    ensures finds { FindsInfos (rule_fault grammar.now number
        (rule_name (class_at grammar.now number) (rule_in rule.now).target) ruled.now
        (rule_in rule.now).body (slot_of grammar.now number (rule_in rule.now).target)) result }
    ensures slot { IfOk result (λ r. slot_of grammar.now number (rule_in rule.now).target
        ≡ Some (slot_in r.0)) }
    ensures new { IfOk result (λ r. list_any (same_slot (slot_in r.0)) ruled.now ≡ false) }
    ensures reads { IfOk result (λ r. map leaves_in r.1
        ≡ rule_leaves grammar.now (number, rule_in rule.now)) }
{
    match slot(grammar, tables, number, rule.target) {
        Some(slot) => {
            let reads = slot_form(alloc, grammar, tables, number, rule, slot, ruled.has(slot))?;
            Ok((slot, reads))
        }
        None => Err(GrammarFault::NotAssignable {
            rule: name_of(alloc, grammar, number, rule.target)?,
        }),
    }
}

/// Looks at the form of a rule for this slot, and gives what it reads.
fn slot_form(
    alloc: Global,
    grammar: &Grammar,
    tables: &Tables,
    number: u32,
    rule: &FlatRule<'_>,
    slot: RuleSlot,
    is_second: bool,
) -> Result<Items<PartReads>, GrammarFault>
    requires small { HasSmallCounts grammar.now }
    requires tables { tables.now ≡ tables_of grammar.now }
    requires within { number < length grammar.now.classes }
    requires slot { IsSlotIn grammar.now number slot }
    ensures finds { FindsInfos (form_fault grammar.now number
        (rule_name (class_at grammar.now number) (rule_in rule.now).target) is_second
        (form_of grammar.now number (slot_in slot) (rule_in rule.now).body)) result }
    ensures first { IfOk result (λ done. is_second ≡ false) }
    ensures reads { IfOk result (λ r. map leaves_in r ≡ map (part_leaves grammar.now number)
        (parts_by (form_of grammar.now number (slot_in slot) (rule_in rule.now).body))) }
{
    let Some(found) = form(grammar, tables, number, slot, &rule.body) else {
        return Err(GrammarFault::BadForm {
            rule: name_of(alloc, grammar, number, rule.target)?,
        });
    };
    if is_second {
        return Err(GrammarFault::TwiceRuled {
            rule: name_of(alloc, grammar, number, rule.target)?,
        });
    }
    form_reads(alloc, grammar, tables, number, rule.target, &found)
}

/// Looks at the reads of a rule, and numbers them part by part.
fn form_reads(
    alloc: Global,
    grammar: &Grammar,
    tables: &Tables,
    number: u32,
    target: &Target,
    form: &RuleForm<'_>,
) -> Result<Items<PartReads>, GrammarFault>
    requires small { HasSmallCounts grammar.now }
    requires tables { tables.now ≡ tables_of grammar.now }
    requires within { number < length grammar.now.classes }
    requires form { IsFormIn grammar.now number form.now }
    ensures finds { FindsInfos (first_of (bad_read grammar.now number
        (rule_name (class_at grammar.now number) target.now)) (parts_in form.now)) result }
    ensures reads { IfOk result (λ r. map leaves_in r
        ≡ map (part_leaves grammar.now number) (parts_in form.now)) }
{
    let mut parts = Items::new(alloc);
    parts.push(part_reads(alloc, grammar, tables, number, target, &form.first)?)?;
    if let Some(part) = &form.second {
        parts.push(part_reads(alloc, grammar, tables, number, target, part)?)?;
    }
    Ok(parts)
}

#[tactic(auto, using(ftl_meaning::proofs::faults::First::first_steps))]
fn part_reads(
    alloc: Global,
    grammar: &Grammar,
    tables: &Tables,
    number: u32,
    target: &Target,
    part: &Part<'_>,
) -> Result<PartReads, GrammarFault>
    requires small { HasSmallCounts grammar.now }
    requires tables { tables.now ≡ tables_of grammar.now }
    requires within { number < length grammar.now.classes }
    requires at { IsWithin grammar.now number part.now.at }
    ensures finds { FindsInfos (bad_read grammar.now number
        (rule_name (class_at grammar.now number) target.now) (part_in part.now)) result }
    ensures reads { IfOk result (λ r. leaves_in r
        ≡ part_leaves grammar.now number (part_in part.now)) }
{
    let mut numbers = Items::new(alloc);
    for read in part.expr.reads() {
        numbers.push(one_read(alloc, grammar, tables, number, target, part, read)?)?;
    }
    Ok(PartReads {
        at: part.at,
        reads: numbers,
    })
}

fn one_read(
    alloc: Global,
    grammar: &Grammar,
    tables: &Tables,
    number: u32,
    target: &Target,
    part: &Part<'_>,
    read: &ReadRef<'_>,
) -> Result<NumberedRead, GrammarFault>
    requires small { HasSmallCounts grammar.now }
    requires tables { tables.now ≡ tables_of grammar.now }
    requires within { number < length grammar.now.classes }
    requires at { IsWithin grammar.now number part.now.at }
    ensures finds { FindsInfos (fault_if (is_none (leaf_of grammar.now number
        (part_in part.now).0 read.now)) (fault.BadRead
        (rule_name (class_at grammar.now number) target.now) read.now)) result }
    ensures leaf { IfOk result (λ n. leaf_of grammar.now number (part_in part.now).0 read.now
        ≡ Some (leaf_in n)) }
{
    match number_of(grammar, tables, number, part.at, read) {
        Some(number) => Ok(number),
        None => Err(GrammarFault::BadRead {
            rule: name_of(alloc, grammar, number, target)?,
            read: read.to_name()?,
        }),
    }
}
