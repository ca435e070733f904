//! Canonical texts of schedules, also of ones that aren't accepted. A request is `print` and a
//! text, in which `/` stands for a line feed; or `nest` and the text of a schedule whose passes may
//! nest others.

ghost use Rattle.std.specs.Prelude.{◌≤◌, length, IfSome};
ghost use Rattle.ftl_model.specs.layout.Limits.{most_page_bytes};
ghost use Rattle.ftl_schedule.specs.printing.WrittenOf.{AreStagesKnown};

use crate::nests::write_nests;
use ftl_checked::Checked;
use ftl_schedule::{Schedule, print_schedule, read_schedule};
use ftl_tokens::{Scanned, tokens};
use std::alloc::{AllocError, Global};
use std::fmt::Write;

/// The answers to these requests on a grammar.
pub(crate) fn write_schedules(
    out: &mut String,
    alloc: Global,
    checked: &Checked,
    requests: &str,
) -> Result<(), AllocError> {
    for request in requests.lines() {
        match request.split_once(' ') {
            Some(("print", text)) => write_canonical(out, alloc, checked, text)?,
            Some(("nest", text)) => write_of_nests(out, alloc, checked, text)?,
            _ => out.push_str("no request\n")?,
        }
    }
    Ok(())
}

/// The text with line feeds in the place of `/`.
fn with_lines(alloc: Global, text: &str) -> Result<String, AllocError> {
    let mut lines = String::new(alloc);
    for piece in text.chars() {
        lines.push(if piece == '/' { '\n' } else { piece })?;
    }
    Ok(lines)
}

/// The tokens of a text that is no longer than one may be.
fn scanned(alloc: Global, text: String) -> Option<Scanned>
    ensures short { IfSome result (λ s. length s.text ≤ most_page_bytes) }
{
    if text.len() > 67108864 {
        return None;
    }
    tokens(alloc, text).ok()
}

/// The canonical text between marks `<` and `>`.
fn write_canonical(
    out: &mut String,
    alloc: Global,
    checked: &Checked,
    text: &str,
) -> Result<(), AllocError> {
    match scanned(alloc, with_lines(alloc, text)?) {
        Some(scanned) => write_canonical_of(out, alloc, checked, &scanned),
        None => out.push_str("no tokens\n"),
    }
}

/// What is answered of a schedule whose passes may nest others.
fn write_of_nests(
    out: &mut String,
    alloc: Global,
    checked: &Checked,
    text: &str,
) -> Result<(), AllocError> {
    match scanned(alloc, with_lines(alloc, text)?) {
        Some(scanned) => write_nests(out, alloc, checked, &scanned),
        None => out.push_str("no tokens\n"),
    }
}

fn write_canonical_of(
    out: &mut String,
    alloc: Global,
    checked: &Checked,
    scanned: &Scanned,
) -> Result<(), AllocError>
    requires short { length scanned.now.text ≤ most_page_bytes }
{
    match read_schedule(alloc, checked, scanned) {
        Ok(schedule) => write_schedule(out, alloc, checked, &schedule),
        Err(_) => out.push_str("no schedule\n"),
    }
}

fn write_schedule(
    out: &mut String,
    alloc: Global,
    checked: &Checked,
    schedule: &Schedule,
) -> Result<(), AllocError>
    requires known { AreStagesKnown checked.now.grammar schedule.now.stages }
{
    let text = print_schedule(alloc, checked, schedule)?;
    write!(out, "<{}>\n", text.as_str())
}
