//! Names of sections, classes, rules, reads and attributes.

ghost use Rattle.std.specs.Prelude.{◌≡◌, ◌++◌, OnOk};
ghost use Rattle.std.specs.List.{flat_map};
ghost use Rattle.ftl_meaning.specs.faults.Numbering.{class_at};
ghost use Rattle.ftl_answer.specs.refusals.Names.{attribute_text, dotted, place_name, read_text};
ghost use Rattle.ftl_answer.specs.refusals.Names.{rule_text, rule_text_at, section_name};
ghost use Rattle.ftl_answer.specs.refusals.ScheduleLines.{spaced_text};

use crate::refusals::pieces::text;
use ftl_checked::{Checked, ReadName, RuleName};
use ftl_page::Section;
use ftl_tokens::Name;
use std::alloc::{AllocError, Global};

pub(crate) fn section_name(section: Section) -> &'static str
    ensures name { result.now ≡ section_name section }
{
    match section {
        Section::Grammar => "grammar",
        Section::Schedule => "schedule",
        Section::Document => "document",
        Section::Edits => "edits",
    }
}

/// Adds a name, a dot and another.
pub(crate) fn dotted(out: &mut Vec<u8>, owner: &str, name: &str) -> Result<(), AllocError>
    ensures added { OnOk result (out.new.items ≡ out.old.items ++ dotted owner.now name.now) }
{
    text(out, owner)?;
    text(out, ".")?;
    text(out, name)
}

/// The name of a class; empty where there is none of this number.
pub(crate) fn class_name(checked: &Checked, class: u32) -> &str
    ensures name { result.now ≡ (class_at checked.now.grammar class).name }
{
    match checked.grammar().classes.as_slice().get(class as usize) {
        Some(class) => class.name.text(),
        None => "",
    }
}

/// Adds a rule by name.
pub(crate) fn rule(out: &mut Vec<u8>, rule: &RuleName) -> Result<(), AllocError>
    ensures added { OnOk result (out.new.items ≡ out.old.items ++ rule_text rule.now) }
{
    text(out, rule.class.text())?;
    text(out, " ")?;
    dotted(out, place(&rule.child), rule.attr.text())
}

/// Where a rule holds.
fn place(child: &Option<Name>) -> &str
    ensures place { result.now ≡ place_name child.now }
{
    match child {
        None => "self",
        Some(child) => child.text(),
    }
}

/// Adds what a rule reads.
pub(crate) fn read(out: &mut Vec<u8>, read: &ReadName) -> Result<(), AllocError>
    ensures added { OnOk result (out.new.items ≡ out.old.items ++ read_text read.now) }
{
    match read {
        ReadName::Own(attr) => dotted(out, "self", attr.text()),
        ReadName::This(attr) => dotted(out, "this", attr.text()),
        ReadName::Prev(attr) => dotted(out, "prev", attr.text()),
        ReadName::Of(child, attr) => dotted(out, child.text(), attr.text()),
        ReadName::Last(child, attr) => {
            text(out, "last ")?;
            dotted(out, child.text(), attr.text())
        }
        ReadName::Acc => text(out, "acc"),
    }
}

/// Adds an attribute by number.
pub(crate) fn attribute(out: &mut Vec<u8>, checked: &Checked, attr: u32) -> Result<(), AllocError>
    ensures added { OnOk result (out.new.items
        ≡ out.old.items ++ attribute_text checked.now.grammar attr) }
{
    if attr < checked.attr_count() {
        dotted(
            out,
            checked.owner_name(attr).text(),
            checked.attr_name(attr).text(),
        )
    } else {
        Ok(())
    }
}

/// Adds a rule by number.
pub(crate) fn rule_at(
    alloc: Global,
    out: &mut Vec<u8>,
    checked: &Checked,
    number: u32,
) -> Result<(), AllocError>
    ensures added { OnOk result (out.new.items
        ≡ out.old.items ++ rule_text_at checked.now.grammar number) }
{
    if number < checked.rule_count() {
        rule(out, &checked.rule_name(alloc, number)?)
    } else {
        Ok(())
    }
}

/// Adds a rule between two texts.
pub(crate) fn around_rule(
    out: &mut Vec<u8>,
    before: &str,
    name: &RuleName,
    after: &str,
) -> Result<(), AllocError>
    ensures added { OnOk result (out.new.items
        ≡ out.old.items ++ (before.now ++ (rule_text name.now ++ after.now))) }
{
    text(out, before)?;
    rule(out, name)?;
    text(out, after)
}

/// Adds an attribute by number between two texts.
pub(crate) fn around_attribute(
    out: &mut Vec<u8>,
    checked: &Checked,
    before: &str,
    attr: u32,
    after: &str,
) -> Result<(), AllocError>
    ensures added { OnOk result (out.new.items ≡ out.old.items
        ++ (before.now ++ (attribute_text checked.now.grammar attr ++ after.now))) }
{
    text(out, before)?;
    attribute(out, checked, attr)?;
    text(out, after)
}

/// Adds a rule by number between two texts.
pub(crate) fn around_rule_at(
    alloc: Global,
    out: &mut Vec<u8>,
    checked: &Checked,
    before: &str,
    number: u32,
    after: &str,
) -> Result<(), AllocError>
    ensures added { OnOk result (out.new.items ≡ out.old.items
        ++ (before.now ++ (rule_text_at checked.now.grammar number ++ after.now))) }
{
    text(out, before)?;
    rule_at(alloc, out, checked, number)?;
    text(out, after)
}

/// Adds a text, a name, a dot and another name.
pub(crate) fn dotted_after(
    out: &mut Vec<u8>,
    before: &str,
    owner: &str,
    name: &str,
) -> Result<(), AllocError>
    ensures added { OnOk result (out.new.items
        ≡ out.old.items ++ (before.now ++ dotted owner.now name.now)) }
{
    text(out, before)?;
    dotted(out, owner, name)
}

/// Adds two rules by number, each after a text, and a last text.
pub(crate) fn two_rules_at(
    alloc: Global,
    out: &mut Vec<u8>,
    checked: &Checked,
    rules: (u32, u32),
    texts: (&str, &str, &str),
) -> Result<(), AllocError>
    ensures added { OnOk result (out.new.items ≡ out.old.items
        ++ (texts.entry.0.now ++ (rule_text_at checked.now.grammar rules.0
        ++ (texts.entry.1.now ++ (rule_text_at checked.now.grammar rules.1
        ++ texts.entry.2.now))))) }
{
    around_rule_at(alloc, out, checked, texts.0, rules.0, texts.1)?;
    rule_at(alloc, out, checked, rules.1)?;
    text(out, texts.2)
}

/// Adds a text, and some attributes by number, each after a space.
pub(crate) fn with_attributes(
    out: &mut Vec<u8>,
    checked: &Checked,
    before: &str,
    attrs: &[u32],
) -> Result<(), AllocError>
    ensures added { OnOk result (out.new.items ≡ out.old.items
        ++ (before.now ++ flat_map (spaced_text checked.now.grammar) attrs.now)) }
{
    text(out, before)?;
    spaced_all(out, checked, attrs)
}

/// Adds some attributes, each after a space.
fn spaced_all(out: &mut Vec<u8>, checked: &Checked, attrs: &[u32]) -> Result<(), AllocError>
    ensures line { OnOk result (out.new.items
        ≡ out.old.items ++ flat_map (spaced_text checked.now.grammar) attrs.now) }
{
    for attr in attrs {
        spaced(out, checked, *attr)?;
    }
    Ok(())
}

fn spaced(out: &mut Vec<u8>, checked: &Checked, attr: u32) -> Result<(), AllocError>
    ensures line { OnOk result (out.new.items
        ≡ out.old.items ++ spaced_text checked.now.grammar attr) }
{
    text(out, " ")?;
    attribute(out, checked, attr)
}
