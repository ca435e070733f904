//! Names by number, in one line.

ghost use Rattle.std.specs.Prelude.{◌<◌, length};
ghost use Rattle.ftl_meaning.specs.faults.Checked.{all_rules};

use ftl_checked::{Checked, RuleName};
use std::alloc::{AllocError, Global};
use std::fmt::Write;

/// The attributes with their owners, in the order of their numbers.
pub(crate) fn write_attribute_names(out: &mut String, checked: &Checked) -> Result<(), AllocError> {
    for attr in 0..checked.attr_count() {
        out.push_str(separator(attr))?;
        write_attribute(out, checked, attr)?;
    }
    out.push('\n')
}

/// What stands before the entry of this number.
fn separator(number: u32) -> &'static str {
    if number == 0 { "" } else { " " }
}

/// An attribute and its owner.
pub(crate) fn write_attribute(
    out: &mut String,
    checked: &Checked,
    attr: u32,
) -> Result<(), AllocError> {
    if attr >= checked.attr_count() {
        return Ok(());
    }
    let (owner, name) = (checked.owner_name(attr), checked.attr_name(attr));
    write!(out, "{}.{}", owner.text(), name.text())
}

/// What the rules define, in the order of their numbers.
pub(crate) fn write_rule_names(
    out: &mut String,
    alloc: Global,
    checked: &Checked,
) -> Result<(), AllocError> {
    for rule in 0..checked.rule_count() {
        out.push_str(separator(rule))?;
        write_rule(out, alloc, checked, rule)?;
    }
    out.push('\n')
}

/// What the rule of this number defines.
pub(crate) fn write_rule(
    out: &mut String,
    alloc: Global,
    checked: &Checked,
    rule: u32,
) -> Result<(), AllocError>
    requires within { rule < length (all_rules checked.now.grammar) }
{
    let name = checked.rule_name(alloc, rule)?;
    write_rule_name(out, &name)
}

fn write_rule_name(out: &mut String, rule: &RuleName) -> Result<(), AllocError> {
    write!(out, "{}.", rule.class.text())?;
    if let Some(child) = &rule.child {
        write!(out, "{}.", child.text())?;
    }
    out.push_str(rule.attr.text())
}
