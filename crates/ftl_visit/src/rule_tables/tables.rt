//! Tables of the numbers of rules.
ghost use Rattle.std.specs.Prelude.{◌≡◌, ◌<◌, None, Some, length, IfOk};
ghost use Rattle.ftl_meaning.specs.faults.Checked.{all_attributes};
ghost use Rattle.ftl_meaning.specs.faults.Numbering.{class_at};
ghost use Rattle.ftl_deps.specs.reads.Meant.{meant};
ghost use Rattle.ftl_visit.specs.visits.Visits.{rule_number};
ghost use Rattle.ftl_visit.specs.rule_tables.RuleTables.{by_number, class_kid_rules, kid_rules};
ghost use Rattle.ftl_visit.specs.rule_tables.RuleTables.{own_rules};
ghost use Rattle.ftl_visit.specs.rule_tables.RuleTables.{rules_by_attribute};

use crate::visits::RuleIndex;
use sqlite_items::Items;
use std::alloc::{AllocError, Global};

/// The numbers of the rules by class and attribute, for the nodes themselves; and by class, child
/// and attribute, for the kids in a child. None where there is no such rule.
#[derive(Drop)]
pub struct RuleTables {
    pub own: Items<Items<Option<u32>>>,
    pub kids: Items<Items<Items<Option<u32>>>>,
}

impl RuleTables {
    /// The tables of a grammar; takes time and room as there are classes, children and attributes.
    pub fn new(alloc: Global, index: &RuleIndex<'_>) -> Result<RuleTables, AllocError>
        ensures own { IfOk result (λ t. t.own ≡ own_rules (meant index.now)) }
        ensures kids { IfOk result (λ t. t.kids ≡ kid_rules (meant index.now)) }
    {
        let own = own_rules(alloc, index)?;
        let kids = kid_rules(alloc, index)?;
        Ok(RuleTables { own, kids })
    }
}

fn own_rules(alloc: Global, index: &RuleIndex<'_>) -> Result<Items<Items<Option<u32>>>, AllocError>
    ensures rules { IfOk result (λ t. t ≡ own_rules (meant index.now)) }
{
    let mut table = Items::new(alloc);
    for class in 0..index.checked().class_count() {
        table.push(own_row(alloc, index, class)?)?;
    }
    Ok(table)
}

#[tactic(auto, using(ftl_checked::proofs::lookup::AttrInfos::attribute_count_is))]
fn own_row(
    alloc: Global,
    index: &RuleIndex<'_>,
    class: u32,
) -> Result<Items<Option<u32>>, AllocError>
    ensures rules { IfOk result (λ t. t ≡ rules_by_attribute (meant index.now) class None) }
{
    let mut row = Items::new(alloc);
    for attr in 0..index.checked().attr_count() {
        row.push(index.own(class, attr))?;
    }
    Ok(row)
}

fn kid_rules(
    alloc: Global,
    index: &RuleIndex<'_>,
) -> Result<Items<Items<Items<Option<u32>>>>, AllocError>
    ensures rules { IfOk result (λ t. t ≡ kid_rules (meant index.now)) }
{
    let mut table = Items::new(alloc);
    for class in 0..index.checked().class_count() {
        table.push(class_kid_rules(alloc, index, class)?)?;
    }
    Ok(table)
}

fn class_kid_rules(
    alloc: Global,
    index: &RuleIndex<'_>,
    class: u32,
) -> Result<Items<Items<Option<u32>>>, AllocError>
    requires within { class < length index.now.grammar.classes }
    ensures rules { IfOk result (λ t. t ≡ class_kid_rules (meant index.now) class) }
{
    let mut table = Items::new(alloc);
    for child in 0..index.checked().child_count(class) {
        table.push(kid_row(alloc, index, class, child)?)?;
    }
    Ok(table)
}

#[tactic(auto, using(ftl_checked::proofs::lookup::AttrInfos::attribute_count_is))]
fn kid_row(
    alloc: Global,
    index: &RuleIndex<'_>,
    class: u32,
    child: u32,
) -> Result<Items<Option<u32>>, AllocError>
    ensures rules { IfOk result (λ t. t ≡ rules_by_attribute (meant index.now) class (Some child)) }
{
    let mut row = Items::new(alloc);
    for attr in 0..index.checked().attr_count() {
        row.push(index.kid(class, child, attr))?;
    }
    Ok(row)
}
