//! For whom rules are.
ghost use Rattle.std.specs.Prelude.{◌≡◌, None, map, IfOk};
ghost use Rattle.ftl_meaning.specs.faults.FirstFault.{first_fault};
ghost use Rattle.ftl_deps.specs.reads.Meant.{meant};
ghost use Rattle.ftl_deps.specs.reads.Products.{name_of_info};
ghost use Rattle.ftl_visit.specs.passes.VisitRows.{target_of};

use ftl_checked::{Checked, RuleInfo};
use std::alloc::{AllocError, Global};

/// For whom a rule is.
#[derive(Clone, Copy, Debug, PartialEq, Eq)]
pub enum RuleTarget {
    /// The node at which it runs.
    Own,
    /// The kids in this child of that node.
    Kids(u32),
}

/// For whom each rule is, by its number.
pub fn rule_targets(alloc: Global, checked: &Checked) -> Result<Vec<RuleTarget>, AllocError>
    ensures targets { IfOk result (λ v. v.items ≡ map target_of (meant checked.now).rules) }
{
    has_no_fault(checked);
    let mut targets = Vec::new(alloc);
    for rule in 0..checked.rule_count() {
        targets.push(target_of(checked.rule(rule)))?;
    }
    Ok(targets)
}

fn target_of(info: RuleInfo) -> RuleTarget
    ensures target { result ≡ target_of (name_of_info info) }
{
    match info.child {
        None => RuleTarget::Own,
        Some(child) => RuleTarget::Kids(child),
    }
}

/// A law: a checked grammar has no fault.
fn has_no_fault(checked: &Checked)
    ensures none { first_fault checked.now.grammar ≡ None }
{
    let _ = checked.grammar();
}
