//! Which attributes a class needs rules for.
ghost use Rattle.std.specs.Prelude.{◌≡◌, ◌+◌, ◌<◌, [], ◌∷◌, None, length, IfOk};
ghost use Rattle.std.specs.Option.{option_map};
ghost use Rattle.ftl_meaning.specs.faults.Counts.{IsSmall, HasSmallCounts};
ghost use Rattle.ftl_meaning.specs.faults.Finds.{Finds};
ghost use Rattle.ftl_meaning.specs.faults.FirstFault.{first_of, first_there, missing_rule};
ghost use Rattle.ftl_meaning.specs.faults.FirstFault.{rule_name};
ghost use Rattle.ftl_checked.specs.grammars.MissingRules.{kid_in, missing_for_kid, missing_of};
ghost use Rattle.ftl_meaning.specs.faults.Numbering.{children_of, class_at, interface_of, numbered};
ghost use Rattle.ftl_meaning.specs.faults.Numbering.{own_attributes, shared_attributes};
ghost use Rattle.ftl_checked.specs.grammars.Slots.{slots_of};
ghost use Rattle.ftl_checked.specs.lookup.Tables.{tables_of};
ghost use Rattle.ftl_grammar.specs.declared.syntax.rules.Target.TheVariants as targets;

use crate::grammars::forms::is_own;
use crate::grammars::slots::{RuleSlot, Ruled};
use crate::lookup::{
    Tables, class, class_table, inherits, interface, interface_number, interface_table,
};
use ftl_grammar::{AttrDecl, Child, Grammar};
use ftl_meaning::{GrammarFault, RuleName};
use ftl_tokens::Name;
use std::alloc::AllocError;

/// A child of a class, with its number.
#[derive(Drop)]
pub struct KidOf<'a> {
    pub number: u32,
    pub child: &'a Child,
}

/// Looks for the first attribute that has no rule.
pub(crate) fn missing(
    grammar: &Grammar,
    tables: &Tables,
    number: u32,
    ruled: &Ruled,
) -> Result<(), GrammarFault>
    requires small { HasSmallCounts grammar.now }
    requires tables { tables.now ≡ tables_of grammar.now }
    requires within { number < length grammar.now.classes }
    requires ruled { ruled.now
        ≡ slots_of grammar.now number (class_at grammar.now number).rules }
    ensures finds { Finds (missing_rule grammar.now number) result }
{
    missing_of_class(grammar, tables, number, ruled)
}

fn missing_of_class(
    grammar: &Grammar,
    tables: &Tables,
    number: u32,
    ruled: &Ruled,
) -> Result<(), GrammarFault>
    requires small { HasSmallCounts grammar.now }
    requires tables { tables.now ≡ tables_of grammar.now }
    requires within { number < length grammar.now.classes }
    requires ruled { ruled.now
        ≡ slots_of grammar.now number (class_at grammar.now number).rules }
    ensures finds { Finds (first_there (
        first_of (missing_of grammar.now number None)
        (shared_attributes grammar.now (interface_of grammar.now number))
        ∷ first_of (missing_of grammar.now number None) (own_attributes grammar.now number)
        ∷ first_of (missing_for_kid grammar.now number) (children_of grammar.now number)
        ∷ [])) result }
{
    let interface = class_table(grammar, tables, number).interface;
    missing_of_interface(grammar, tables, number, ruled, &None, interface)?;
    missing_own(grammar, tables, number, ruled)?;
    missing_for_kids(grammar, tables, number, ruled)
}

fn missing_own(
    grammar: &Grammar,
    tables: &Tables,
    number: u32,
    ruled: &Ruled,
) -> Result<(), GrammarFault>
    requires small { HasSmallCounts grammar.now }
    requires tables { tables.now ≡ tables_of grammar.now }
    requires within { number < length grammar.now.classes }
    requires ruled { ruled.now
        ≡ slots_of grammar.now number (class_at grammar.now number).rules }
    ensures finds { Finds (first_of (missing_of grammar.now number None)
        (own_attributes grammar.now number)) result }
{
    let start = class_table(grammar, tables, number).start;
    let own = class(grammar, number).attrs.as_slice();
    missing_in(grammar, number, ruled, &None, own, start)
}

#[tactic(auto, using(ftl_meaning::proofs::faults::FirstNumbered::placed_steps))]
fn missing_for_kids(
    grammar: &Grammar,
    tables: &Tables,
    number: u32,
    ruled: &Ruled,
) -> Result<(), GrammarFault>
    requires small { HasSmallCounts grammar.now }
    requires tables { tables.now ≡ tables_of grammar.now }
    requires within { number < length grammar.now.classes }
    requires ruled { ruled.now
        ≡ slots_of grammar.now number (class_at grammar.now number).rules }
    requires children { IsSmall (length (class_at grammar.now number).children) }
    ensures finds { Finds (first_of (missing_for_kid grammar.now number)
        (children_of grammar.now number)) result }
{
    for (place, child) in class(grammar, number)
        .children
        .as_slice()
        .iter()
        .enumerate()
    {
        one_kid(grammar, tables, number, ruled, place as u32, child)?;
    }
    Ok(())
}

#[tactic(auto, unfolding(crate::specs::grammars::MissingRules::missing_for_kid))]
fn one_kid(
    grammar: &Grammar,
    tables: &Tables,
    number: u32,
    ruled: &Ruled,
    place: u32,
    child: &Child,
) -> Result<(), GrammarFault>
    requires small { HasSmallCounts grammar.now }
    requires tables { tables.now ≡ tables_of grammar.now }
    requires within { number < length grammar.now.classes }
    requires ruled { ruled.now
        ≡ slots_of grammar.now number (class_at grammar.now number).rules }
    ensures finds { Finds (missing_for_kid grammar.now number (place, child.now)) result }
{
    let interface = interface_number(grammar, &tables.names, &child.interface);
    let kid = Some(KidOf {
        number: place,
        child,
    });
    missing_of_interface(grammar, tables, number, ruled, &kid, interface)
}

/// Looks at the attributes of an interface, for the node itself or for a child's kids.
fn missing_of_interface(
    grammar: &Grammar,
    tables: &Tables,
    number: u32,
    ruled: &Ruled,
    kid: &Option<KidOf<'_>>,
    place: u32,
) -> Result<(), GrammarFault>
    requires small { HasSmallCounts grammar.now }
    requires tables { tables.now ≡ tables_of grammar.now }
    requires within { number < length grammar.now.classes }
    requires ruled { ruled.now
        ≡ slots_of grammar.now number (class_at grammar.now number).rules }
    ensures finds { Finds (first_of (missing_of grammar.now number (option_map kid_in kid.now))
        (shared_attributes grammar.now place)) result }
{
    if place as usize >= grammar.interfaces.len() {
        return Ok(());
    }
    let start = interface_table(grammar, tables, place).start;
    let attrs = interface(grammar, place).attrs.as_slice();
    missing_in(grammar, number, ruled, kid, attrs, start)
}

/// Looks at attributes that are numbered from `start` on.
#[tactic(auto, using(ftl_meaning::proofs::faults::FirstNumbered::numbered_steps))]
fn missing_in(
    grammar: &Grammar,
    number: u32,
    ruled: &Ruled,
    kid: &Option<KidOf<'_>>,
    attrs: &[AttrDecl],
    start: u32,
) -> Result<(), GrammarFault>
    requires within { number < length grammar.now.classes }
    requires ruled { ruled.now
        ≡ slots_of grammar.now number (class_at grammar.now number).rules }
    requires small { IsSmall (start + length attrs.now) }
    ensures finds { Finds (first_of (missing_of grammar.now number (option_map kid_in kid.now))
        (numbered start attrs.now)) result }
{
    for (place, attr) in attrs.iter().enumerate() {
        missing_one(grammar, number, ruled, kid, attr, start + place as u32)?;
    }
    Ok(())
}

#[tactic(auto, using(crate::proofs::grammars::MissingLists::ruled_as))]
fn missing_one(
    grammar: &Grammar,
    number: u32,
    ruled: &Ruled,
    kid: &Option<KidOf<'_>>,
    attr: &AttrDecl,
    place: u32,
) -> Result<(), GrammarFault>
    requires within { number < length grammar.now.classes }
    requires ruled { ruled.now
        ≡ slots_of grammar.now number (class_at grammar.now number).rules }
    ensures finds { Finds (missing_of grammar.now number (option_map kid_in kid.now)
        (place, attr.now)) result }
{
    match kid {
        None => {
            if !is_own(attr.kind) || ruled.has(RuleSlot::Own(place)) {
                return Ok(());
            }
            Err(GrammarFault::MissingRule {
                rule: own_name(grammar, number, &attr.name)?,
            })
        }
        Some(kid) => {
            if !inherits(attr.kind) || ruled.has(RuleSlot::Kid(kid.number, place)) {
                return Ok(());
            }
            Err(GrammarFault::MissingRule {
                rule: kid_name(grammar, number, kid, &attr.name)?,
            })
        }
    }
}

fn own_name(grammar: &Grammar, number: u32, attr: &Name) -> Result<RuleName, AllocError>
    requires within { number < length grammar.now.classes }
    ensures name { IfOk result (λ n. n
        ≡ rule_name (class_at grammar.now number) (targets.Own attr.now)) }
{
    Ok(RuleName {
        class: class(grammar, number).name.copy()?,
        child: None,
        attr: attr.copy()?,
    })
}

fn kid_name(
    grammar: &Grammar,
    number: u32,
    kid: &KidOf<'_>,
    attr: &Name,
) -> Result<RuleName, AllocError>
    requires within { number < length grammar.now.classes }
    ensures name { IfOk result (λ n. n ≡ rule_name (class_at grammar.now number)
        (targets.Of kid.now.child.now.name attr.now)) }
{
    Ok(RuleName {
        class: class(grammar, number).name.copy()?,
        child: Some(kid.child.name.copy()?),
        attr: attr.copy()?,
    })
}
