//! The first writers of what a rule reads.
ghost use Rattle.std.specs.Prelude.{◌≡◌, ◌<◌, None, IfOk, length, map};
ghost use Rattle.std.specs.List.{All};
ghost use Rattle.ftl_meaning.specs.faults.Checked.{all_rules};
ghost use Rattle.ftl_meaning.specs.faults.FirstFault.{first_fault};
ghost use Rattle.ftl_order.specs.dependencies.DepReads.{dep_table};
ghost use Rattle.ftl_order.specs.dependencies.Writers.{first_writer};
ghost use Rattle.ftl_deps.specs.reads.DepRows.{dep_rows, writer_table, writers_at};
ghost use Rattle.ftl_deps.specs.reads.Meant.{HasKnownChild, meant};
ghost use Rattle.ftl_deps.specs.reads.Products.{FindsFirst, looked_for};

use crate::reads::first_rules::{first_of, first_rules};
use crate::reads::product::Product;
use ftl_checked::Checked;
use ftl_order::{DepRead, Site};
use sqlite_items::Items;
use std::alloc::{AllocError, Global};
use std::collections::HashMap;

/// The first writers of what each rule reads.
pub(crate) fn all_writers(
    alloc: Global,
    checked: &Checked,
    reads: &[Items<DepRead>],
) -> Result<Items<Items<Option<u32>>>, AllocError>
    requires lawful { first_fault checked.now.grammar ≡ None }
    requires reads { reads.now ≡ dep_table (meant checked.now) }
    ensures writers { IfOk result (λ ws. ws ≡ writer_table (meant checked.now)) }
{
    let first = first_rules(alloc, checked)?;
    let mut writers = Items::new(alloc);
    for rule in 0..checked.rule_count() {
        writers.push(rule_writers(alloc, checked, &first, reads, rule)?)?;
    }
    Ok(writers)
}

/// The first writers of what the rule of this number reads.
fn rule_writers(
    alloc: Global,
    checked: &Checked,
    first: &HashMap<Product, u32>,
    reads: &[Items<DepRead>],
    rule: u32,
) -> Result<Items<Option<u32>>, AllocError>
    requires lawful { first_fault checked.now.grammar ≡ None }
    requires within { rule < length (all_rules checked.now.grammar) }
    requires first { FindsFirst (meant checked.now) (meant checked.now).rules first.now }
    requires reads { reads.now ≡ dep_table (meant checked.now) }
    ensures writers { IfOk result (λ ws. ws ≡ writers_at (dep_rows (meant checked.now)) rule) }
{
    let class = checked.rule(rule).class;
    row_writers(
        alloc,
        checked,
        first,
        class,
        reads[rule as usize].as_slice(),
    )
}

/// The first writers of what a rule of this class reads.
pub(crate) fn row_writers(
    alloc: Global,
    checked: &Checked,
    first: &HashMap<Product, u32>,
    class: u32,
    reads: &[DepRead],
) -> Result<Items<Option<u32>>, AllocError>
    requires within { class < length checked.now.grammar.classes }
    requires first { FindsFirst (meant checked.now) (meant checked.now).rules first.now }
    requires children { All (HasKnownChild checked.now.grammar class) reads.now }
    ensures writers { IfOk result (λ ws. ws
        ≡ map (first_writer (meant checked.now) class) reads.now) }
{
    let mut writers = Items::new(alloc);
    for place in 0..reads.len() {
        let read = reads[place];
        writers.push(writer_of(checked, first, class, read))?;
    }
    Ok(writers)
}

fn writer_of(
    checked: &Checked,
    first: &HashMap<Product, u32>,
    class: u32,
    read: DepRead,
) -> Option<u32>
    requires within { class < length checked.now.grammar.classes }
    requires first { FindsFirst (meant checked.now) (meant checked.now).rules first.now }
    requires child { HasKnownChild checked.now.grammar class read }
    ensures writer { result ≡ first_writer (meant checked.now) class read }
{
    match product_of(checked, class, read) {
        None => None,
        Some(product) => first_of(first, product),
    }
}

/// What a reader of this class looks for.
fn product_of(checked: &Checked, class: u32, read: DepRead) -> Option<Product>
    requires within { class < length checked.now.grammar.classes }
    requires child { HasKnownChild checked.now.grammar class read }
    ensures product { result ≡ looked_for (meant checked.now) class read.site read.child read.attr }
{
    match (read.site, read.child) {
        (Site::Input, _) | (Site::Below, None) => None,
        (Site::SameVisit, None) => Some(Product::Own(class, read.attr)),
        (Site::SameVisit, Some(child)) => Some(Product::Kid(class, child, read.attr)),
        (Site::Above, _) => Some(Product::Above(checked.interface_of(class), read.attr)),
        (Site::Below, Some(child)) => {
            Some(Product::Below(checked.child(class, child).interface, read.attr))
        }
    }
}
