//! The first rule that writes each product.
ghost use Rattle.std.specs.Prelude.{◌≡◌, ◌<◌, ◌+◌, None, IfOk, IfSome, OnOk, length, take};
ghost use Rattle.ftl_meaning.specs.faults.Checked.{all_rules};
ghost use Rattle.ftl_meaning.specs.faults.FirstFault.{first_fault};
ghost use Rattle.ftl_meaning.specs.faults.Numbering.{class_at};
ghost use Rattle.ftl_deps.specs.reads.Meant.{meant};
ghost use Rattle.ftl_deps.specs.reads.Products.{FindsFirst, at_product, or_this, same_product};
ghost use Rattle.ftl_deps.specs.reads.Products.{name_of_info, written_elsewhere, written_here};

use crate::reads::product::Product;
use ftl_checked::{Checked, RuleInfo};
use std::alloc::{AllocError, Global};
use std::collections::HashMap;

/// The first rule that writes each product, by number.
pub(crate) fn first_rules(
    alloc: Global,
    checked: &Checked,
) -> Result<HashMap<Product, u32>, AllocError>
    requires lawful { first_fault checked.now.grammar ≡ None }
    ensures first { IfOk result (FindsFirst (meant checked.now) (meant checked.now).rules) }
{
    let mut first = HashMap::new(alloc);
    for rule in 0..checked.rule_count() {
        add_rule(checked, rule, &mut first)?;
    }
    Ok(first)
}

/// Keeps a rule where it is the first that writes a product.
fn add_rule(
    checked: &Checked,
    rule: u32,
    first: &mut HashMap<Product, u32>,
) -> Result<(), AllocError>
    requires lawful { first_fault checked.now.grammar ≡ None }
    requires within { rule < length (all_rules checked.now.grammar) }
    requires first { FindsFirst (meant checked.now) (take rule (meant checked.now).rules)
        first.old }
    ensures first { OnOk result (FindsFirst (meant checked.now)
        (take (rule + 1) (meant checked.now).rules) first.new) }
{
    let info = checked.rule(rule);
    add(first, written_here(info), rule)?;
    add(first, written_elsewhere(checked, info), rule)?;
    Ok(())
}

fn written_here(info: RuleInfo) -> Product
    ensures product { result ≡ written_here (name_of_info info) }
{
    match info.child {
        None => Product::Own(info.class, info.attr),
        Some(child) => Product::Kid(info.class, child, info.attr),
    }
}

fn written_elsewhere(checked: &Checked, info: RuleInfo) -> Product
    requires class { info.class < length checked.now.grammar.classes }
    requires child { IfSome info.child (λ c. c
        < length (class_at checked.now.grammar info.class).children) }
    ensures product { result ≡ written_elsewhere (meant checked.now) (name_of_info info) }
{
    match info.child {
        None => Product::Below(checked.interface_of(info.class), info.attr),
        Some(child) => Product::Above(checked.child(info.class, child).interface, info.attr),
    }
}

/// Keeps the rule for a product that has none yet.
fn add(first: &mut HashMap<Product, u32>, product: Product, rule: u32) -> Result<(), AllocError>
    ensures added { OnOk result ((p : Product) → at_product first.new p
        ≡ or_this (at_product first.old p) (same_product product p) rule) }
{
    if first.get(&product).is_none() {
        first.insert(product, rule)?;
    }
    Ok(())
}

/// The first rule that writes a product.
pub(crate) fn first_of(first: &HashMap<Product, u32>, product: Product) -> Option<u32>
    ensures rule { result ≡ at_product first.now product }
{
    first.get(&product).copied()
}
