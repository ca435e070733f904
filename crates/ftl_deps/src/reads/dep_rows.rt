//! The reads of all rules.
ghost use Rattle.std.specs.Prelude.{◌≡◌, None, IfOk};
ghost use Rattle.ftl_meaning.specs.faults.FirstFault.{first_fault};
ghost use Rattle.ftl_order.specs.dependencies.DepReads.{dep_table};
ghost use Rattle.ftl_deps.specs.reads.Meant.{meant};

use crate::reads::dep_rule::rule_deps;
use ftl_checked::Checked;
use ftl_order::DepRead;
use sqlite_items::Items;
use std::alloc::{AllocError, Global};

/// The reads of each rule, by number.
pub(crate) fn all_rows(
    alloc: Global,
    checked: &Checked,
) -> Result<Items<Items<DepRead>>, AllocError>
    requires lawful { first_fault checked.now.grammar ≡ None }
    ensures rows { IfOk result (λ rows. rows ≡ dep_table (meant checked.now)) }
{
    let mut rows = Items::new(alloc);
    for rule in 0..checked.rule_count() {
        rows.push(rule_deps(alloc, checked, rule)?)?;
    }
    Ok(rows)
}
