//! The check of grammars.
ghost use Rattle.std.specs.Prelude.{◌≡◌, map, IfOk};
ghost use Rattle.ftl_grammar.specs.reading.Readable.{CanBeRead};
ghost use Rattle.ftl_model.specs.layout.Outcome.{Gives};
ghost use Rattle.ftl_meaning.specs.faults.Checked.{all_rules, checked_as, rule_info};
ghost use Rattle.ftl_meaning.specs.faults.Counts.{HasSmallCounts};
ghost use Rattle.ftl_meaning.specs.faults.Finds.{FindsInfos};
ghost use Rattle.ftl_meaning.specs.faults.FirstFault.{first_fault};
ghost use Rattle.ftl_checked.specs.grammars.ReadNumbers.{leaves_in, rule_leaves};
ghost use Rattle.ftl_checked.specs.lookup.Tables.{tables_of};
ghost use Rattle.ftl_meaning.specs.declared.faults.fault.GrammarFault.TheVariants.{OutOfMemory};

use crate::declarations::{limits_hold, names_stand};
use crate::grammars::checked::Checked;
use crate::grammars::class_checks::checked_rules;
use crate::grammars::rules::CheckedRules;
use crate::lookup::{Tables, attr_infos, build_tables, interface_number};
use ftl_base::Width;
use ftl_grammar::Grammar;
use ftl_meaning::{GrammarFault, small_counts};
use std::alloc::Global;

/// A lawful grammar with its numbers, or the first fault of a grammar that was read.
pub fn check_grammar(alloc: Global, grammar: Grammar, width: Width) -> Result<Checked, GrammarFault>
    requires readable { CanBeRead grammar }
    ensures exact { Gives OutOfMemory (λ c. c) result (checked_as grammar width) }
{
    small_counts(&grammar);
    let (tables, rules) = conditions(alloc, &grammar)?;
    let attrs = attr_infos(alloc, &grammar)?;
    let root = interface_number(&grammar, &tables.names, &grammar.root);
    Ok(Checked::new(grammar, width, tables, attrs, rules, root))
}

/// Looks at all conditions in order.
fn conditions(alloc: Global, grammar: &Grammar) -> Result<(Tables, CheckedRules), GrammarFault>
    requires small { HasSmallCounts grammar.now }
    ensures finds { FindsInfos (first_fault grammar.now) result }
    ensures tables { IfOk result (λ r. r.0 ≡ tables_of grammar.now) }
    ensures rules { IfOk result (λ r. r.1.infos
        ≡ map (rule_info grammar.now) (all_rules grammar.now)) }
    ensures reads { IfOk result (λ r. map (map leaves_in) r.1.reads
        ≡ map (rule_leaves grammar.now) (all_rules grammar.now)) }
{
    let flat = limits_hold(alloc, grammar)?;
    let tables = build_tables(alloc, grammar)?;
    names_stand(alloc, grammar, &tables)?;
    let rules = checked_rules(alloc, grammar, &tables, flat.as_slice())?;
    Ok((tables, rules))
}
