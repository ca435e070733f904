//! The attributes of classes.
ghost use Rattle.std.specs.Prelude.{◌≡◌, ◌<◌, ◌≤◌, ◌+◌, ◌++◌, flat_map, length, take, IfOk, OnOk};
ghost use Rattle.std.specs.List.{range_with_len};
ghost use Rattle.ftl_model.specs.layout.AttributeGrammar.{attributes_of};
ghost use Rattle.ftl_meaning.specs.faults.Numbering.{own_count, shared_count};
ghost use Rattle.ftl_deps.specs.reads.Meant.{meant};
ghost use Rattle.ftl_visit.specs.rule_tables.RuleTables.{by_number};

use ftl_checked::Checked;
use ftl_grammar::{Class, Interface};
use sqlite_items::Items;
use std::alloc::{AllocError, Global};

/// The attributes of each class by number: those of its interface, then its own.
pub fn class_attributes(alloc: Global, checked: &Checked) -> Result<Items<Items<u32>>, AllocError>
    ensures attributes { IfOk result (λ t. t ≡ by_number (attributes_of (meant checked.now))
        (meant checked.now).class_count) }
{
    let mut table = Items::new(alloc);
    for class in 0..checked.class_count() {
        table.push(attributes_of(alloc, checked, class)?)?;
    }
    Ok(table)
}

fn attributes_of(alloc: Global, checked: &Checked, class: u32) -> Result<Items<u32>, AllocError>
    requires within { class < length checked.now.grammar.classes }
    ensures attributes { IfOk result (λ t. t ≡ attributes_of (meant checked.now) class) }
{
    let mut attrs = Items::new(alloc);
    add_shared(checked, checked.interface_of(class), &mut attrs)?;
    add_own(checked, class, &mut attrs)?;
    Ok(attrs)
}

/// Adds the attributes of an interface.
fn add_shared(checked: &Checked, interface: u32, attrs: &mut Items<u32>) -> Result<(), AllocError>
    ensures added { OnOk result
        (attrs.new ≡ attrs.old ++ (meant checked.now).shared interface) }
{
    let _count = checked.attr_count();
    let interfaces = checked.grammar().interfaces.as_slice();
    if interface as usize >= interfaces.len() {
        return Ok(());
    }
    let first = shared_before(interfaces, interface as usize);
    add_run(attrs, first, interfaces[interface as usize].attrs.len())
}

/// Adds the attributes that a class has of its own.
fn add_own(checked: &Checked, class: u32, attrs: &mut Items<u32>) -> Result<(), AllocError>
    requires within { class < length checked.now.grammar.classes }
    ensures added { OnOk result
        (attrs.new ≡ attrs.old ++ (meant checked.now).private class) }
{
    let _count = checked.attr_count();
    let interfaces = checked.grammar().interfaces.as_slice();
    let classes = checked.grammar().classes.as_slice();
    let shared = shared_before(interfaces, interfaces.len());
    let first = shared + own_before(classes, class as usize);
    add_run(attrs, first, classes[class as usize].attrs.len())
}

/// Adds so many numbers from the first on.
fn add_run(attrs: &mut Items<u32>, first: usize, count: usize) -> Result<(), AllocError>
    requires small { first + count < 4294967296 }
    ensures added { OnOk result (attrs.new ≡ attrs.old ++ range_with_len first count) }
{
    for attr in first..first + count {
        attrs.push(attr as u32)?;
    }
    Ok(())
}

/// How many attributes the first so many interfaces have.
#[tactic(auto, using(crate::proofs::rule_tables::AttributeRuns::run_steps))]
fn shared_before(interfaces: &[Interface], count: usize) -> usize
    requires within { count ≤ length interfaces.now }
    requires small { shared_count interfaces.now < 4294967296 }
    ensures count { result ≡ shared_count (take count interfaces.now) }
{
    let mut total = 0;
    for at in 0..count {
        total += interfaces[at].attrs.len();
    }
    total
}

/// How many attributes of their own the first so many classes have.
#[tactic(auto, using(crate::proofs::rule_tables::AttributeRuns::run_steps))]
fn own_before(classes: &[Class], count: usize) -> usize
    requires within { count ≤ length classes.now }
    requires small { own_count classes.now < 4294967296 }
    ensures count { result ≡ own_count (take count classes.now) }
{
    let mut total = 0;
    for at in 0..count {
        total += classes[at].attrs.len();
    }
    total
}
