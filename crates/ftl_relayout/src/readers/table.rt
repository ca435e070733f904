//! The readers of each attribute by classes, made once for a grammar.
ghost use Rattle.std.specs.Prelude.{◌≡◌, ◌<◌, ◌≤◌, ◌++◌, ◌∷◌, [], IfOk, OnOk};
ghost use Rattle.std.specs.Prelude.{length, map, slice_index_or, slice_set};
ghost use Rattle.ftl_deps.specs.parts.RuleParts.{all_parts, parts_meant};
ghost use Rattle.ftl_deps.specs.reads.Meant.{meant};
ghost use Rattle.ftl_meaning.specs.faults.Checked.{all_rules};
ghost use Rattle.ftl_model.specs.layout.Limits.{most_classes};
ghost use Rattle.ftl_relayout.specs.readers.Readers.{AreReaders};
ghost use Rattle.ftl_relayout.specs.readers.Tables.{Comes, HasNone, IsOfParts, IsOfReads};
ghost use Rattle.ftl_relayout.specs.readers.Tables.{IsOfRules};

use crate::readers::lists::{list_count, list_of};
use crate::readers::reader::{Reader, When};
use ftl_checked::Checked;
use ftl_deps::{PartRead, RuleParts};
use ftl_meaning::RuleInfo;
use ftl_schedule::attribute_count;
use ftl_step_value::limits::is_sound;
use sqlite_items::Items;
use std::alloc::{AllocError, Global};

/// The readers of each attribute for each class, in lists of their own.
pub(crate) fn all_readers(
    alloc: Global,
    checked: &Checked,
    parts: &[RuleParts],
) -> Result<Vec<Items<Reader>>, AllocError>
    requires parts { map parts_meant parts.now ≡ all_parts (meant checked.now) }
    ensures readers { IfOk result (λ v. AreReaders (meant checked.now) v.items) }
{
    let _lawful = checked.grammar();
    is_sound(checked);
    let classes = checked.class_count();
    let count = list_count(classes, attribute_count(checked));
    let mut lists = no_readers(alloc, count)?;
    add_rules(&mut lists, classes, checked, parts)?;
    Ok(lists)
}

/// Adds the reads of all rules.
fn add_rules(
    lists: &mut [Items<Reader>],
    classes: u32,
    checked: &Checked,
    parts: &[RuleParts],
) -> Result<(), AllocError>
    requires few { classes ≤ most_classes }
    requires parts { length parts.now ≡ length (all_rules checked.now.grammar) }
    ensures comes { OnOk result (Comes classes lists.old lists.new (IsOfRules checked.now
        (map parts_meant parts.now) (length (all_rules checked.now.grammar)))) }
{
    for rule in 0..checked.rule_count() {
        add_rule(lists, classes, checked.rule(rule), &parts[rule as usize])?;
    }
    Ok(())
}

/// So many lists with nothing in them.
fn no_readers(alloc: Global, count: usize) -> Result<Vec<Items<Reader>>, AllocError>
    ensures long { IfOk result (λ v. length v.items ≡ count) }
    ensures none { IfOk result (λ v. HasNone v.items) }
{
    let mut lists = Vec::new(alloc);
    for _list in 0..count {
        lists.push(Items::new(alloc))?;
    }
    Ok(lists)
}

/// Adds the reads of a rule with these parts.
fn add_rule(
    lists: &mut [Items<Reader>],
    classes: u32,
    info: RuleInfo,
    parts: &RuleParts,
) -> Result<(), AllocError>
    requires few { classes ≤ most_classes }
    ensures comes { OnOk result (Comes classes lists.old lists.new
        (IsOfParts info (parts_meant parts.now))) }
{
    match parts {
        RuleParts::Plain(reads) => add_reads(lists, classes, info, When::Always, reads.as_slice()),
        RuleParts::FirstThen(first, later) => {
            add_reads(lists, classes, info, When::First, first.as_slice())?;
            add_reads(lists, classes, info, When::Later, later.as_slice())
        }
        RuleParts::FoldOver(child, start, each) => {
            add_reads(lists, classes, info, When::Always, start.as_slice())?;
            add_reads(lists, classes, info, When::EachKid(*child), each.as_slice())
        }
    }
}

/// Adds the reads of a part that is read then.
fn add_reads(
    lists: &mut [Items<Reader>],
    classes: u32,
    info: RuleInfo,
    when: When,
    reads: &[PartRead],
) -> Result<(), AllocError>
    requires few { classes ≤ most_classes }
    ensures comes { OnOk result (Comes classes lists.old lists.new
        (IsOfReads info when reads.now)) }
{
    for read in reads {
        add_read(lists, classes, info, when, *read)?;
    }
    Ok(())
}

/// Adds a read to the readers of its attribute that stand for the class of its rule.
fn add_read(
    lists: &mut [Items<Reader>],
    classes: u32,
    info: RuleInfo,
    when: When,
    read: PartRead,
) -> Result<(), AllocError>
    requires few { classes ≤ most_classes }
    ensures comes { OnOk result (Comes classes lists.old lists.new
        (IsOfReads info when (read ∷ []))) }
{
    let reader = Reader { info, when, read };
    let list = list_of(classes, reader);
    if list >= lists.len() {
        return Ok(());
    }
    add_reader(lists, list, reader)
}

/// Adds a reader to a list.
fn add_reader(lists: &mut [Items<Reader>], list: usize, reader: Reader) -> Result<(), AllocError>
    requires list { list < length lists.old }
    ensures list { OnOk result (lists.new
        ≡ slice_set lists.old list (slice_index_or lists.old list [] ++ reader ∷ [])) }
{
    lists[list].push(reader)
}
