//! The tables by which what instances read is counted.
ghost use Rattle.std.specs.Prelude.{IfOk};
ghost use Rattle.ftl_deps.specs.reads.Meant.{meant};
ghost use Rattle.ftl_step_value.specs.limits.reads.ReadTables.{AreTables};

use ftl_checked::Checked;
use ftl_deps::{RuleParts, all_rule_parts};
use ftl_visit::{RuleIndex, RuleTables, class_attributes};
use sqlite_items::Items;
use std::alloc::{AllocError, Global};

/// The rules by what they define, the parts of each, and the attributes of each class.
#[derive(Drop)]
pub struct ReadTables {
    pub rules: RuleTables,
    pub parts: Items<RuleParts>,
    pub attributes: Items<Items<u32>>,
}

impl ReadTables {
    pub fn new(alloc: Global, checked: &Checked) -> Result<ReadTables, AllocError>
        ensures tables { IfOk result (AreTables (meant checked.now)) }
    {
        let index = RuleIndex::new(alloc, checked)?;
        let rules = RuleTables::new(alloc, &index)?;
        let parts = all_rule_parts(alloc, checked)?;
        let attributes = class_attributes(alloc, checked)?;
        Ok(ReadTables {
            rules,
            parts,
            attributes,
        })
    }
}
