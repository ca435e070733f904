//! The parts of one rule.
ghost use Rattle.std.specs.Prelude.{◌≡◌, ◌<◌, flat_map, length, map, IfOk};
ghost use Rattle.std.specs.Option.{option_map, option_to_list};
ghost use Rattle.ftl_checked.specs.grammars.ReadNumbers.{leaf_in, leaves_in, rule_leaves_at};
ghost use Rattle.ftl_deps.specs.reads.Meant.{reads_among};
ghost use Rattle.ftl_meaning.specs.faults.Checked.{all_rules};
ghost use Rattle.ftl_meaning.specs.grammars.Meaning.{read_of};
ghost use Rattle.ftl_deps.specs.parts.RuleParts.{parts_by_leaves, parts_meant};
ghost use Rattle.ftl_checked.specs.grammars.Positions.{position_of};
ghost use Rattle.ftl_deps.specs.parts.RuleParts.{read_meant, two_parts};

use crate::parts::part_read::PartRead;
use crate::parts::rule_parts::RuleParts;
use ftl_checked::{At, Checked, NumberedRead, PartReads};
use sqlite_items::Items;
use std::alloc::{AllocError, Global};

/// The parts of the rule of this number.
pub(crate) fn written_parts(
    alloc: Global,
    checked: &Checked,
    rule: u32,
) -> Result<RuleParts, AllocError>
    requires within { rule < length (all_rules checked.now.grammar) }
    ensures parts { IfOk result (λ p. parts_meant p
        ≡ parts_by_leaves (rule_leaves_at checked.now.grammar rule)) }
{
    parts_of(alloc, checked.rule_reads(rule))
}

/// The parts of a rule with these expressions.
fn parts_of(alloc: Global, parts: &[PartReads]) -> Result<RuleParts, AllocError>
    ensures parts { IfOk result (λ p. parts_meant p ≡ parts_by_leaves (map leaves_in parts.now)) }
{
    match parts {
        [] => Ok(RuleParts::Plain(Items::new(alloc))),
        [only] => Ok(RuleParts::Plain(reads_of(alloc, only)?)),
        [first, second, ..] => {
            let start = reads_of(alloc, first)?;
            let later = reads_of(alloc, second)?;
            Ok(two_parts(second.at, start, later))
        }
    }
}

/// The parts of a rule of two expressions, the second of which stands here.
fn two_parts(at: At, first: Items<PartRead>, second: Items<PartRead>) -> RuleParts
    ensures parts { parts_meant result
        ≡ two_parts (position_of at) (map read_meant first) (map read_meant second) }
{
    match at {
        At::InStep(child) => RuleParts::FoldOver(child, first, second),
        At::ForSelf | At::ForSingle | At::ForKids(_) | At::ForLater(_) => {
            RuleParts::FirstThen(first, second)
        }
    }
}

/// The reads of a part.
fn reads_of(alloc: Global, part: &PartReads) -> Result<Items<PartRead>, AllocError>
    ensures reads { IfOk result (λ reads. map read_meant reads
        ≡ reads_among (map leaf_in part.now.reads)) }
{
    let mut reads = Items::new(alloc);
    for read in part.reads.as_slice() {
        if let Some(read) = read_of(*read) {
            reads.push(read)?;
        }
    }
    Ok(reads)
}

/// The read of a name; none of what a fold has so far.
fn read_of(read: NumberedRead) -> Option<PartRead>
    ensures read { option_map read_meant result ≡ read_of (leaf_in read) }
{
    match read {
        NumberedRead::Own(attr) => Some(PartRead::Own(attr)),
        NumberedRead::Single(child, attr) => Some(PartRead::Single(child, attr)),
        NumberedRead::Each(child, attr) => Some(PartRead::Each(child, attr)),
        NumberedRead::This(child, attr) => Some(PartRead::This(child, attr)),
        NumberedRead::Prev(child, attr) => Some(PartRead::Prev(child, attr)),
        NumberedRead::Last(child, attr) => Some(PartRead::Last(child, attr)),
        NumberedRead::Acc => None,
    }
}
