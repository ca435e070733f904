//! The names of attributes and rules, by number.
ghost use Rattle.std.specs.Prelude.{◌≡◌, ◌<◌, ◌≤◌, true, false, length, flat_map, take, IfOk};
ghost use Rattle.ftl_meaning.specs.faults.Checked.{all_attributes, all_rules, attribute_at};
ghost use Rattle.ftl_meaning.specs.faults.Checked.{attribute_info, owner_name_of, rule_info_at};
ghost use Rattle.ftl_meaning.specs.faults.Counts.{IsSmall};
ghost use Rattle.ftl_meaning.specs.faults.FirstFault.{rule_name};
ghost use Rattle.ftl_meaning.specs.faults.Numbering.{class_at};
ghost use Rattle.ftl_meaning.specs.faults.RuleNames.{rule_name_at};
ghost use Rattle.ftl_checked.specs.lookup.Tables.{tables_of};

use crate::lookup::find::{class, class_table, interface, interface_table};
use crate::lookup::tables::Tables;
use ftl_grammar::{Class, Grammar, Target};
use ftl_meaning::{AttrInfo, RuleName};
use ftl_tokens::Name;
use std::alloc::{AllocError, Global};

/// The name of an attribute of which this is known.
pub fn attr_name<'a>(grammar: &'a Grammar, tables: &Tables, info: AttrInfo, attr: u32) -> &'a Name
    requires tables { tables.now ≡ tables_of grammar.now }
    requires within { attr < length (all_attributes grammar.now) }
    requires info { info ≡ attribute_info grammar.now (attribute_at grammar.now attr) }
    ensures name { result.now ≡ (attribute_at grammar.now attr).decl.name }
{
    if info.of_class {
        own_name(grammar, tables, info.owner, attr)
    } else {
        shared_name(grammar, tables, info.owner, attr)
    }
}

/// The name of an interface's attribute.
fn shared_name<'a>(grammar: &'a Grammar, tables: &Tables, owner: u32, attr: u32) -> &'a Name
    requires tables { tables.now ≡ tables_of grammar.now }
    requires within { attr < length (all_attributes grammar.now) }
    requires owner { owner ≡ (attribute_at grammar.now attr).owner }
    requires shared { (attribute_at grammar.now attr).of_class ≡ false }
    ensures name { result.now ≡ (attribute_at grammar.now attr).decl.name }
{
    let start = interface_table(grammar, tables, owner).start;
    let attrs = interface(grammar, owner).attrs.as_slice();
    &attrs[(attr - start) as usize].name
}

/// The name of a class's own attribute.
fn own_name<'a>(grammar: &'a Grammar, tables: &Tables, owner: u32, attr: u32) -> &'a Name
    requires tables { tables.now ≡ tables_of grammar.now }
    requires within { attr < length (all_attributes grammar.now) }
    requires owner { owner ≡ (attribute_at grammar.now attr).owner }
    requires own { (attribute_at grammar.now attr).of_class ≡ true }
    ensures name { result.now ≡ (attribute_at grammar.now attr).decl.name }
{
    let start = class_table(grammar, tables, owner).start;
    let attrs = class(grammar, owner).attrs.as_slice();
    &attrs[(attr - start) as usize].name
}

/// The name of the interface or class that declares an attribute of which this is known.
pub fn owner_name(grammar: &Grammar, info: AttrInfo, attr: u32) -> &Name
    requires within { attr < length (all_attributes grammar.now) }
    requires info { info ≡ attribute_info grammar.now (attribute_at grammar.now attr) }
    ensures name { result.now ≡ owner_name_of grammar.now (attribute_at grammar.now attr) }
{
    if info.of_class {
        &class(grammar, info.owner).name
    } else {
        &interface(grammar, info.owner).name
    }
}

/// What a rule of this class defines, by name.
pub fn rule_name(
    alloc: Global,
    grammar: &Grammar,
    number: u32,
    rule: u32,
) -> Result<RuleName, AllocError>
    requires within { rule < length (all_rules grammar.now) }
    requires class { number ≡ (rule_info_at grammar.now rule).class }
    requires small { IsSmall (length (flat_map (λ k. k.rules) grammar.now.classes)) }
    ensures name { IfOk result (λ r. r ≡ rule_name_at grammar.now rule) }
{
    let place = rule as usize - rules_before(grammar.classes.as_slice(), number as usize);
    let target = &class(grammar, number).rules.as_slice()[place].target;
    name_of(alloc, grammar, number, target)
}

/// How many rules the first classes have.
#[tactic(auto, using(crate::proofs::lookup::Standing::rule_steps))]
fn rules_before(classes: &[Class], count: usize) -> usize
    requires within { count ≤ length classes.now }
    requires small { IsSmall (length (flat_map (λ k. k.rules) classes.now)) }
    ensures rules { result ≡ length (flat_map (λ k. k.rules) (take count classes.now)) }
{
    let mut rules = 0;
    for number in 0..count {
        rules += classes[number].rules.len();
    }
    rules
}

/// The name of a rule of this class.
pub fn name_of(
    alloc: Global,
    grammar: &Grammar,
    number: u32,
    target: &Target,
) -> Result<RuleName, AllocError>
    requires within { number < length grammar.now.classes }
    ensures name { IfOk result (λ n. n ≡ rule_name (class_at grammar.now number) target.now) }
{
    let class = class(grammar, number).name.copy()?;
    match target {
        Target::Own(attr) => Ok(RuleName {
            class,
            child: None,
            attr: attr.copy()?,
        }),
        Target::Of(child, attr) => Ok(RuleName {
            class,
            child: Some(child.copy()?),
            attr: attr.copy()?,
        }),
    }
}
