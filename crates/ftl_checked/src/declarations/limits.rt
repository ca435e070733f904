//! The first condition: how much there may be of anything.
ghost use Rattle.std.specs.Prelude.{◌≡◌, ◌+◌, ◌<◌, length, filter, map, IfOk};
ghost use Rattle.std.specs.List.{All};
ghost use Rattle.ftl_model.specs.layout.Limits.{most_owner_attributes, most_part_reads};
ghost use Rattle.ftl_meaning.specs.faults.Counts.{IsSmall, HasSmallInterface, HasSmallRule};
ghost use Rattle.ftl_meaning.specs.faults.Counts.{HasSmallClass, HasSmallCounts};
ghost use Rattle.ftl_meaning.specs.faults.Finds.{Finds, FindsInfos};
ghost use Rattle.ftl_meaning.specs.faults.Numbering.{own_count, shared_count};
ghost use Rattle.ftl_meaning.specs.faults.FirstFault.{first_of, too_many, is_counted, read_count};
ghost use Rattle.ftl_meaning.specs.faults.FirstFault.{class_limits, read_limits, limit_fault};
ghost use Rattle.ftl_meaning.specs.faults.RuleForms.{expressions_of};
ghost use Rattle.ftl_checked.specs.declarations.FlatRules.{body_in, rule_in, rules_in};
ghost use Rattle.ftl_checked.specs.declarations.FlatRules.{rules_of_each};
ghost use Rattle.ftl_meaning.specs.declared.faults.fault.What.TheVariants as what;

use crate::declarations::flat::{FlatBody, FlatExpr, FlatRule, flat_rule};
use crate::lookup::shared;
use ftl_grammar::{Class, Grammar, Interface, Rule};
use ftl_meaning::{GrammarFault, ReadKind, ReadRef, What};
use sqlite_items::Items;
use std::alloc::Global;

/// Looks for more of anything than there may be, and gives the rules of each class, flattened.
pub fn limits_hold<'a>(
    alloc: Global,
    grammar: &'a Grammar,
) -> Result<Items<Items<FlatRule<'a>>>, GrammarFault>
    requires small { HasSmallCounts grammar.now }
    ensures finds { FindsInfos (limit_fault grammar.now) result }
    ensures rules { IfOk result (λ flat. rules_in flat ≡ rules_of_each grammar.now.classes) }
{
    let interfaces = grammar.interfaces.as_slice();
    let classes = grammar.classes.as_slice();
    limit(What::Interfaces, 128, interfaces.len())?;
    limit(What::Classes, 128, classes.len())?;
    interface_limits(interfaces)?;
    classes_limits(classes)?;
    limit(What::AllAttributes, 2048, shared(interfaces) + own(classes))?;
    all_flat_rules(alloc, classes)
}

fn limit(what: What, most: usize, count: usize) -> Result<(), GrammarFault>
    requires small { IsSmall count }
    ensures finds { Finds (too_many what most count) result }
{
    if count > most {
        return Err(GrammarFault::TooMany {
            what,
            count: count as u32,
        });
    }
    Ok(())
}

#[tactic(auto, using(ftl_meaning::proofs::faults::First::first_steps))]
fn interface_limits(interfaces: &[Interface]) -> Result<(), GrammarFault>
    requires small { All HasSmallInterface interfaces.now }
    ensures finds { Finds (first_of (λ x. too_many what.Attributes most_owner_attributes
        (length x.attrs)) interfaces.now) result }
{
    for interface in interfaces {
        limit(What::Attributes, 64, interface.attrs.len())?;
    }
    Ok(())
}

fn one_class_limits(class: &Class) -> Result<(), GrammarFault>
    requires small { HasSmallClass class.now }
    ensures finds { Finds (class_limits class.now) result }
{
    limit(What::Attributes, 64, class.attrs.len())?;
    limit(What::Children, 16, class.children.len())
}

#[tactic(auto, using(ftl_meaning::proofs::faults::First::first_steps))]
fn classes_limits(classes: &[Class]) -> Result<(), GrammarFault>
    requires small { All HasSmallClass classes.now }
    ensures finds { Finds (first_of class_limits classes.now) result }
{
    for class in classes {
        one_class_limits(class)?;
    }
    Ok(())
}

/// How many attributes of their own the classes have.
#[tactic(auto, using(ftl_meaning::proofs::faults::Counting::count_steps))]
fn own(classes: &[Class]) -> usize
    requires small { IsSmall (own_count classes.now) }
    ensures count { result ≡ own_count classes.now }
{
    let mut count = 0;
    for class in classes {
        count += class.attrs.len();
    }
    count
}

/// Flattens the rules of all classes, and looks at how much each expression reads.
#[tactic(auto, using(ftl_meaning::proofs::faults::First::first_steps))]
fn all_flat_rules<'a>(
    alloc: Global,
    classes: &'a [Class],
) -> Result<Items<Items<FlatRule<'a>>>, GrammarFault>
    requires small { All HasSmallClass classes.now }
    ensures finds { FindsInfos (first_of (λ x. first_of read_limits x.rules) classes.now) result }
    ensures rules { IfOk result (λ flat. rules_in flat ≡ rules_of_each classes.now) }
{
    let mut flat = Items::new(alloc);
    for class in classes {
        flat.push(flat_rules(alloc, class.rules.as_slice())?)?;
    }
    Ok(flat)
}

#[tactic(auto, using(ftl_meaning::proofs::faults::First::first_steps))]
fn flat_rules<'a>(alloc: Global, rules: &'a [Rule]) -> Result<Items<FlatRule<'a>>, GrammarFault>
    requires small { All HasSmallRule rules.now }
    ensures finds { FindsInfos (first_of read_limits rules.now) result }
    ensures rules { IfOk result (λ flat. map rule_in flat ≡ rules.now) }
{
    let mut flat = Items::new(alloc);
    for rule in rules {
        let one = flat_rule(alloc, rule)?;
        body_limits(&one.body)?;
        flat.push(one)?;
    }
    Ok(flat)
}

fn body_limits(body: &FlatBody<'_>) -> Result<(), GrammarFault>
    requires small { All (λ e. IsSmall (read_count e)) (expressions_of (body_in body.now)) }
    ensures finds { Finds (first_of (λ e. too_many what.Reads most_part_reads (read_count e))
        (expressions_of (body_in body.now))) result }
{
    match body {
        FlatBody::Plain(expr) => expr_limit(expr),
        FlatBody::FirstThen(first, later) => {
            expr_limit(first)?;
            expr_limit(later)
        }
        FlatBody::Fold(_, start, step) => {
            expr_limit(start)?;
            expr_limit(step)
        }
    }
}

fn expr_limit(expr: &FlatExpr<'_>) -> Result<(), GrammarFault>
    requires small { IsSmall (read_count expr.now) }
    ensures finds { Finds (too_many what.Reads most_part_reads (read_count expr.now)) result }
{
    limit(What::Reads, 256, counted(expr.reads()))
}

/// How many reads these are, without `acc`.
#[tactic(auto, using(ftl_meaning::proofs::faults::Counting::passing_steps))]
fn counted(reads: &[ReadRef<'_>]) -> usize
    ensures count { result ≡ length (filter is_counted reads.now) }
{
    let mut count = 0;
    for read in reads {
        if is_read(read) {
            count += 1;
        }
    }
    count
}

fn is_read(read: &ReadRef<'_>) -> bool
    ensures read { result ≡ is_counted read.now }
{
    match read.kind() {
        ReadKind::Acc => false,
        _ => true,
    }
}
