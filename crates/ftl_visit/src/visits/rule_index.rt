//! The numbers of rules, by what they define.
ghost use Rattle.std.specs.Prelude.{◌≡◌, ◌<◌, ◌+◌, None, Some, IfOk, OnOk, length, take};
ghost use Rattle.ftl_meaning.specs.faults.Checked.{all_rules};
ghost use Rattle.ftl_meaning.specs.faults.FirstFault.{first_fault};
ghost use Rattle.ftl_deps.specs.reads.Meant.{meant};
ghost use Rattle.ftl_deps.specs.reads.Products.{or_this, name_of_info};
ghost use Rattle.ftl_visit.specs.visits.Targets.{FindsFirst, at_target, same_target, target_of};
ghost use Rattle.ftl_visit.specs.visits.Visits.{rule_number};

use crate::visits::target::Target;
use ftl_checked::{Checked, RuleInfo};
use std::alloc::{AllocError, Global};
use std::collections::HashMap;
use std::marker::Model;

/// A grammar with the numbers of its rules at hand. Contracts see the grammar.
#[derive(Drop)]
pub struct RuleIndex<'a> {
    checked: &'a Checked,
    numbers: HashMap<Target, u32>,
}

impl<'a> Model for RuleIndex<'a> {
    ghost use Rattle.std.specs.Coded.{codes};
    ghost use Rattle.ftl_grammar.specs.contracts.syntax.expression.Expr as e;
    ghost use Rattle.ftl_meaning.specs.faults.Checked.{CheckedGrammar};
    ghost use Rattle.ftl_deps.specs.reads.Meant.{meant};
    ghost use Rattle.ftl_visit.specs.visits.Targets.{FindsFirst};

    ghost Value = { CheckedGrammar };

    ghost coded = { Prim.hlevel (codes, e.the_row.coded) };

    ghost view = { λ t. t.checked.now };

    ghost invariant = { λ t. FindsFirst (meant t.checked.now).rules t.numbers };
}

impl<'a> RuleIndex<'a> {
    /// The numbers of all rules; takes time as there are rules.
    pub fn new(alloc: Global, checked: &'a Checked) -> Result<RuleIndex<'a>, AllocError>
        ensures grammar { IfOk result (λ index. index ≡ checked.now) }
    {
        let numbers = rule_numbers(alloc, checked)?;
        Ok(RuleIndex { checked, numbers })
    }

    /// The grammar.
    pub fn checked(&self) -> &Checked
        ensures grammar { result.now ≡ self.now }
    {
        self.checked
    }

    /// The number of a class's rule for an attribute of the node itself.
    pub fn own(&self, class: u32, attr: u32) -> Option<u32>
        ensures number { result ≡ rule_number (meant self.now) class None attr }
    {
        number_of(&self.numbers, Target::Own(class, attr))
    }

    /// The number of a class's rule for an attribute of the kids in a child.
    pub fn kid(&self, class: u32, child: u32, attr: u32) -> Option<u32>
        ensures number { result ≡ rule_number (meant self.now) class (Some child) attr }
    {
        number_of(&self.numbers, Target::Kid(class, child, attr))
    }
}

fn number_of(numbers: &HashMap<Target, u32>, target: Target) -> Option<u32>
    ensures number { result ≡ at_target numbers.now target }
{
    numbers.get(&target).copied()
}

fn rule_numbers(alloc: Global, checked: &Checked) -> Result<HashMap<Target, u32>, AllocError>
    ensures first { IfOk result (FindsFirst (meant checked.now).rules) }
{
    has_no_fault(checked);
    let mut numbers = HashMap::new(alloc);
    for rule in 0..checked.rule_count() {
        add_rule(checked, rule, &mut numbers)?;
    }
    Ok(numbers)
}

/// Keeps a rule where it is the first with its target.
fn add_rule(
    checked: &Checked,
    rule: u32,
    numbers: &mut HashMap<Target, u32>,
) -> Result<(), AllocError>
    requires lawful { first_fault checked.now.grammar ≡ None }
    requires within { rule < length (all_rules checked.now.grammar) }
    requires first { FindsFirst (take rule (meant checked.now).rules) numbers.old }
    ensures first { OnOk result (FindsFirst (take (rule + 1) (meant checked.now).rules)
        numbers.new) }
{
    let info = checked.rule(rule);
    add(numbers, target_of(info), rule)?;
    Ok(())
}

fn target_of(info: RuleInfo) -> Target
    ensures target { result ≡ target_of (name_of_info info) }
{
    match info.child {
        None => Target::Own(info.class, info.attr),
        Some(child) => Target::Kid(info.class, child, info.attr),
    }
}

/// Keeps the rule for a target that has none yet.
fn add(numbers: &mut HashMap<Target, u32>, target: Target, rule: u32) -> Result<(), AllocError>
    ensures added { OnOk result ((x : Target) → at_target numbers.new x
        ≡ or_this (at_target numbers.old x) (same_target target x) rule) }
{
    if numbers.get(&target).is_none() {
        numbers.insert(target, rule)?;
    }
    Ok(())
}

/// A law: a checked grammar has no fault.
fn has_no_fault(checked: &Checked)
    ensures none { first_fault checked.now.grammar ≡ None }
{
    let _ = checked.grammar();
}
