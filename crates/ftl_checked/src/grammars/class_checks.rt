//! The conditions on the rules of all classes.
ghost use Rattle.std.specs.Prelude.{◌≡◌, ◌++◌, ◌<◌, length, map, flat_map, IfOk, OnOk};
ghost use Rattle.ftl_checked.specs.declarations.FlatRules.{rule_in, rules_in, rules_of_each};
ghost use Rattle.ftl_meaning.specs.faults.Checked.{all_rules, rule_info};
ghost use Rattle.ftl_meaning.specs.faults.Counts.{HasSmallCounts};
ghost use Rattle.ftl_meaning.specs.faults.Finds.{Finds, FindsInfos};
ghost use Rattle.ftl_meaning.specs.faults.FirstFault.{class_fault, first_of};
ghost use Rattle.ftl_checked.specs.grammars.MissingRules.{infos_of, reads_of_class};
ghost use Rattle.ftl_checked.specs.grammars.ReadNumbers.{leaves_in, rule_leaves};
ghost use Rattle.ftl_meaning.specs.faults.Numbering.{class_at, numbered};
ghost use Rattle.ftl_checked.specs.lookup.Tables.{tables_of};

use crate::declarations::FlatRule;
use crate::grammars::missing_rules::missing;
use crate::grammars::rules::{CheckedRules, class_rules};
use crate::lookup::Tables;
use ftl_grammar::Grammar;
use ftl_meaning::GrammarFault;
use sqlite_items::Items;
use std::alloc::Global;

/// Looks at all classes in order, and says what is known of all rules.
#[tactic(auto, using(crate::proofs::grammars::RuleInfos::all_steps))]
pub(crate) fn checked_rules(
    alloc: Global,
    grammar: &Grammar,
    tables: &Tables,
    flat: &[Items<FlatRule<'_>>],
) -> Result<CheckedRules, GrammarFault>
    requires small { HasSmallCounts grammar.now }
    requires tables { tables.now ≡ tables_of grammar.now }
    requires flat { rules_in flat.now ≡ rules_of_each grammar.now.classes }
    ensures finds { FindsInfos (first_of (λ k. class_fault grammar.now k.0)
        (numbered 0 grammar.now.classes)) result }
    ensures infos { IfOk result (λ t. t.infos
        ≡ map (rule_info grammar.now) (all_rules grammar.now)) }
    ensures reads { IfOk result (λ t. map (map leaves_in) t.reads
        ≡ map (rule_leaves grammar.now) (all_rules grammar.now)) }
{
    let mut so_far = CheckedRules {
        infos: Items::new(alloc),
        reads: Items::new(alloc),
    };
    all_classes(alloc, grammar, tables, flat, &mut so_far)?;
    Ok(so_far)
}

#[tactic(auto, using(crate::proofs::grammars::RuleInfos::class_steps))]
fn all_classes(
    alloc: Global,
    grammar: &Grammar,
    tables: &Tables,
    flat: &[Items<FlatRule<'_>>],
    so_far: &mut CheckedRules,
) -> Result<(), GrammarFault>
    requires small { HasSmallCounts grammar.now }
    requires tables { tables.now ≡ tables_of grammar.now }
    requires flat { rules_in flat.now ≡ rules_of_each grammar.now.classes }
    ensures finds { Finds (first_of (λ k. class_fault grammar.now k.0)
        (numbered 0 grammar.now.classes)) result }
    ensures infos { OnOk result (so_far.new.infos ≡ so_far.old.infos
        ++ flat_map (infos_of grammar.now) (numbered 0 grammar.now.classes)) }
    ensures reads { OnOk result (map (map leaves_in) so_far.new.reads
        ≡ map (map leaves_in) so_far.old.reads
        ++ flat_map (reads_of_class grammar.now) (numbered 0 grammar.now.classes)) }
{
    for number in 0..grammar.classes.len() as u32 {
        let rules = flat[number as usize].as_slice();
        one_class(alloc, grammar, tables, number, rules, so_far)?;
    }
    Ok(())
}

#[tactic(auto, using(crate::proofs::grammars::RuleInfos::class_fault_is))]
fn one_class(
    alloc: Global,
    grammar: &Grammar,
    tables: &Tables,
    number: u32,
    rules: &[FlatRule<'_>],
    so_far: &mut CheckedRules,
) -> Result<(), GrammarFault>
    requires small { HasSmallCounts grammar.now }
    requires tables { tables.now ≡ tables_of grammar.now }
    requires within { number < length grammar.now.classes }
    requires rules { map rule_in rules.now ≡ (class_at grammar.now number).rules }
    ensures finds { Finds (class_fault grammar.now number) result }
    ensures infos { OnOk result (so_far.new.infos ≡ so_far.old.infos
        ++ infos_of grammar.now (number, class_at grammar.now number)) }
    ensures reads { OnOk result (map (map leaves_in) so_far.new.reads
        ≡ map (map leaves_in) so_far.old.reads
        ++ reads_of_class grammar.now (number, class_at grammar.now number)) }
{
    let ruled = class_rules(alloc, grammar, tables, number, rules, so_far)?;
    missing(grammar, tables, number, &ruled)
}
