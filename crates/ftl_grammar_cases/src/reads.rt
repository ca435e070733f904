//! What rules read, a line each.

ghost use Rattle.std.specs.Prelude.{◌≡◌, ◌<◌, length};
ghost use Rattle.ftl_deps.specs.reads.DepRows.{dep_rows};
ghost use Rattle.ftl_deps.specs.reads.Meant.{meant};

use crate::names::write_rule;
use ftl_checked::Checked;
use ftl_deps::{DepTable, dep_table};
use ftl_order::{DepRead, Form, Site};
use std::alloc::{AllocError, Global};
use std::fmt::Write;

/// The rules, by number: with what they define, and a line for each of their reads.
pub(crate) fn write_rules(
    out: &mut String,
    alloc: Global,
    checked: &Checked,
) -> Result<(), AllocError> {
    let table = dep_table(alloc, checked)?;
    write_rules_of(out, alloc, checked, &table)
}

#[tactic(auto, using(crate::proofs::Rows::rows_are_of_rules))]
fn write_rules_of(
    out: &mut String,
    alloc: Global,
    checked: &Checked,
    table: &DepTable,
) -> Result<(), AllocError>
    requires table { table.now ≡ dep_rows (meant checked.now) }
{
    let _ = checked.grammar();
    for rule in 0..checked.rule_count() {
        write!(out, "rule {rule} ")?;
        write_rule(out, alloc, checked, rule)?;
        out.push('\n')?;
        write_reads(out, table, rule)?;
    }
    Ok(())
}

fn write_reads(out: &mut String, table: &DepTable, rule: u32) -> Result<(), AllocError>
    requires within { rule < length table.now.reads }
{
    let reads = table.reads(rule);
    for (place, read) in reads.iter().enumerate() {
        write_read(out, read)?;
        if let Ok(place) = u32::try_from(place)
            && let Some(writer) = table.first_writer(rule, place)
        {
            write!(out, " by {writer}")?;
        }
        out.push('\n')?;
    }
    Ok(())
}

fn write_read(out: &mut String, read: &DepRead) -> Result<(), AllocError> {
    let (site, form) = (site_word(read.site), form_word(read.form));
    write!(out, "reads {} {site} {form}", read.attr)?;
    match read.child {
        Some(child) => write!(out, " of {child}"),
        None => Ok(()),
    }
}

fn site_word(site: Site) -> &'static str {
    match site {
        Site::Input => "input",
        Site::SameVisit => "here",
        Site::Above => "above",
        Site::Below => "below",
    }
}

fn form_word(form: Form) -> &'static str {
    match form {
        Form::Plain => "plain",
        Form::This => "this",
        Form::Prev => "prev",
        Form::Last => "last",
        Form::Each => "each",
    }
}
