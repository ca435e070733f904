//! What is printed of answers.

ghost use Rattle.maugzeris.specs.pages.PageState.{IsLaidOut};

use maugzeris::{InstanceList, Node, Refusal, Section, Val};
use std::alloc::AllocError;
use std::fmt::Write;

/// The status, the section and the line of a refusal, and the byte that it tells.
pub(crate) fn tell_refusal(out: &mut String, refusal: &Refusal) -> Result<(), AllocError> {
    let line = str::from_utf8(refusal.line()).unwrap_or("no text\n");
    let section = section_name(refusal.section());
    write!(
        out,
        "status {} section {section}: {line}",
        refusal.status().0
    )?;
    if let Some(at) = refusal.byte() {
        writeln!(out, "byte {at}")?;
    }
    Ok(())
}

fn section_name(section: Option<Section>) -> &'static str {
    match section {
        Some(Section::Grammar) => "grammar",
        Some(Section::Schedule) => "schedule",
        Some(Section::Document) => "document",
        Some(Section::Edits) => "edits",
        None => "none",
    }
}

/// A value.
pub(crate) fn tell_value(out: &mut String, value: Val) -> Result<(), AllocError> {
    match value.get() {
        Some(number) => writeln!(out, "{number}")?,
        None => writeln!(out, "overflow")?,
    }
    Ok(())
}

/// The numbers of the touched instances.
pub(crate) fn tell_touched(out: &mut String, touched: &InstanceList) -> Result<(), AllocError> {
    write!(out, "touched")?;
    for instance in touched.as_slice() {
        write!(out, " {instance}")?;
    }
    writeln!(out, "")?;
    Ok(())
}

/// A node: its number, its class, its parent, and the values that it shows.
pub(crate) fn tell_node(out: &mut String, node: Node<'_>) -> Result<(), AllocError>
    requires laid_out { IsLaidOut node.page.now }
{
    write!(out, "node {} {}", node.number(), node.class_name())?;
    match node.parent() {
        Some(parent) => write!(out, " in {parent}:")?,
        None => write!(out, ":")?,
    }
    for place in 0..node.shown().len() {
        tell_shown(out, node.shown_name(place), node.shown_value(place))?;
    }
    writeln!(out, "")?;
    Ok(())
}

fn tell_shown(out: &mut String, name: &str, value: Val) -> Result<(), AllocError> {
    match value.get() {
        Some(number) => write!(out, " {name} {number}")?,
        None => write!(out, " {name} overflow")?,
    }
    Ok(())
}
