//! The parts of all rules.
ghost use Rattle.std.specs.Prelude.{◌≡◌, None, map, IfOk};
ghost use Rattle.ftl_deps.specs.reads.Meant.{meant};
ghost use Rattle.ftl_meaning.specs.faults.FirstFault.{first_fault};
ghost use Rattle.ftl_deps.specs.parts.RuleParts.{all_parts, parts_meant};

use crate::parts::rule_parts::RuleParts;
use crate::parts::written_parts::written_parts;
use ftl_checked::Checked;
use sqlite_items::Items;
use std::alloc::{AllocError, Global};

/// The parts of each rule, by number.
pub fn all_rule_parts(alloc: Global, checked: &Checked) -> Result<Items<RuleParts>, AllocError>
    ensures parts { IfOk result (λ rows. map parts_meant rows ≡ all_parts (meant checked.now)) }
{
    has_no_fault(checked);
    parts_in_order(alloc, checked)
}

fn parts_in_order(alloc: Global, checked: &Checked) -> Result<Items<RuleParts>, AllocError>
    requires lawful { first_fault checked.now.grammar ≡ None }
    ensures parts { IfOk result (λ rows. map parts_meant rows ≡ all_parts (meant checked.now)) }
{
    let mut rows = Items::new(alloc);
    for rule in 0..checked.rule_count() {
        rows.push(written_parts(alloc, checked, rule)?)?;
    }
    Ok(rows)
}

/// A law: a checked grammar has no fault.
fn has_no_fault(checked: &Checked)
    ensures none { first_fault checked.now.grammar ≡ None }
{
    let _ = checked.grammar();
}
