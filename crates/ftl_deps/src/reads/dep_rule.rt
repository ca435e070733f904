//! The reads of one rule.
ghost use Rattle.std.specs.Prelude.{◌≡◌, ◌<◌, ◌++◌, flat_map, length, IfOk, OnOk};
ghost use Rattle.ftl_meaning.specs.faults.Checked.{all_rules};
ghost use Rattle.ftl_checked.specs.grammars.ReadNumbers.{rule_leaves_at};
ghost use Rattle.ftl_deps.specs.reads.Meant.{deps_by_leaves, deps_in, meant, part_deps};

use crate::reads::dep_sites::dep_of;
use ftl_checked::{Checked, NumberedRead, PartReads};
use ftl_order::DepRead;
use sqlite_items::Items;
use std::alloc::{AllocError, Global};

/// What the rule of this number reads, in the order of the text.
#[tactic(auto, using(crate::proofs::reads::WrittenDeps::parts_are))]
pub(crate) fn rule_deps(
    alloc: Global,
    checked: &Checked,
    rule: u32,
) -> Result<Items<DepRead>, AllocError>
    requires within { rule < length (all_rules checked.now.grammar) }
    ensures deps { IfOk result (λ deps. deps
        ≡ deps_by_leaves (meant checked.now) (rule_leaves_at checked.now.grammar rule)) }
{
    deps_of_parts(alloc, checked, checked.rule_reads(rule))
}

fn deps_of_parts(
    alloc: Global,
    checked: &Checked,
    parts: &[PartReads],
) -> Result<Items<DepRead>, AllocError>
    ensures deps { IfOk result (λ deps. deps
        ≡ flat_map (part_deps (meant checked.now)) parts.now) }
{
    let mut deps = Items::new(alloc);
    for part in parts {
        add_deps(checked, part.reads.as_slice(), &mut deps)?;
    }
    Ok(deps)
}

fn add_deps(
    checked: &Checked,
    reads: &[NumberedRead],
    deps: &mut Items<DepRead>,
) -> Result<(), AllocError>
    ensures added { OnOk result (deps.new ≡ deps.old ++ deps_in (meant checked.now) reads.now) }
{
    for read in reads {
        if let Some(dep) = dep_of(checked, *read) {
            deps.push(dep)?;
        }
    }
    Ok(())
}
