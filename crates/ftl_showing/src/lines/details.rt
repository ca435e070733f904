//! One node in full: each attribute with its value, the rule that computes it, and what that read.

ghost use Rattle.std.specs.Prelude.{◌≡◌, ◌<◌, ◌++◌, codes, flat_map, length, map, max, IfOk, OnOk};
ghost use Rattle.std.specs.List.{All as AllOf};
ghost use Rattle.std.specs.String.{string_bytes};
ghost use Rattle.ftl_model.specs.layout.Tree.{size};
ghost use Rattle.maugzeris.specs.pages.Instances.{IsInstanceOn};
ghost use Rattle.maugzeris.specs.pages.PageState.{HasAttribute, IsLaidOut};
ghost use Rattle.ftl_showing.specs.lines.Details.{attribute_lines, computed_lines, field_column};
ghost use Rattle.ftl_showing.specs.lines.Details.{greatest, node_lines, read_line, spaces};
ghost use Rattle.ftl_showing.specs.lines.Lines.{field_on};

use crate::lines::fields::push_field;
use crate::lines::instance::{push_reads, push_source, read_by};
use crate::lines::node::push_head;
use maugzeris::{Page, Reads};
use std::alloc::{AllocError, Global};

/// A node, and each of its attributes in a line of its own, with what computes it beside it and
/// what it read below.
pub fn node_lines(
    alloc: Global,
    page: &Page<'_>,
    reads: &Reads<'_>,
    node: u32,
) -> Result<String, AllocError>
    requires laid_out { IsLaidOut page.now }
    requires same { reads.now ≡ page.now }
    requires node { node < size page.now.tree }
    ensures text { IfOk result (λ t. string_bytes t ≡ node_lines page.now node) }
{
    let attributes = page.attributes(node);
    let width = widest_field(alloc, page, node, attributes)?;
    let mut out = String::new(alloc);
    push_head(&mut out, page, node)?;
    out.push_str("\n")?;
    for attr in attributes {
        push_attribute(alloc, &mut out, page, reads, node, *attr, width)?;
    }
    Ok(out)
}

/// How many bytes the longest of these fields of a node has.
fn widest_field(
    alloc: Global,
    page: &Page<'_>,
    node: u32,
    attributes: &[u32],
) -> Result<usize, AllocError>
    requires laid_out { IsLaidOut page.now }
    requires node { node < size page.now.tree }
    requires known { AllOf (HasAttribute page.now node) attributes.now }
    ensures widest { IfOk result (λ w. w
        ≡ greatest (map (λ a. length (field_on page.now node a)) attributes.now)) }
{
    let mut widest = 0;
    for attr in attributes {
        widest = longer(widest, field_length(alloc, page, node, *attr)?);
    }
    Ok(widest)
}

/// The greater of two lengths.
fn longer(one: usize, other: usize) -> usize
    ensures longer { result ≡ max one other }
{
    if one < other { other } else { one }
}

/// How many bytes a field has.
fn field_length(alloc: Global, page: &Page<'_>, node: u32, attr: u32) -> Result<usize, AllocError>
    requires laid_out { IsLaidOut page.now }
    requires node { node < size page.now.tree }
    requires known { HasAttribute page.now node attr }
    ensures length { IfOk result (λ n. n ≡ length (field_on page.now node attr)) }
{
    let mut field = String::new(alloc);
    push_field(&mut field, page, node, attr)?;
    Ok(field.as_str().len())
}

/// Appends an attribute of a node in a column, what computes it behind that, and a line of what
/// that read.
fn push_attribute(
    alloc: Global,
    out: &mut String,
    page: &Page<'_>,
    reads: &Reads<'_>,
    node: u32,
    attr: u32,
    width: usize,
) -> Result<(), AllocError>
    requires laid_out { IsLaidOut page.now }
    requires same { reads.now ≡ page.now }
    requires node { node < size page.now.tree }
    requires known { HasAttribute page.now node attr }
    ensures text { OnOk result (string_bytes out.new
        ≡ string_bytes out.old ++ attribute_lines page.now width node attr) }
{
    push_column(alloc, out, page, node, attr, width)?;
    let instance = page.instance(node, attr);
    push_computed(alloc, out, page, reads, instance, width)
}

/// Appends an attribute of a node, in a column of this width.
fn push_column(
    alloc: Global,
    out: &mut String,
    page: &Page<'_>,
    node: u32,
    attr: u32,
    width: usize,
) -> Result<(), AllocError>
    requires laid_out { IsLaidOut page.now }
    requires node { node < size page.now.tree }
    requires known { HasAttribute page.now node attr }
    ensures text { OnOk result (string_bytes out.new
        ≡ string_bytes out.old ++ field_column page.now width node attr) }
{
    let length = field_length(alloc, page, node, attr)?;
    out.push_str(" ")?;
    push_field(out, page, node, attr)?;
    push_spaces(out, width.saturating_sub(length))?;
    out.push_str("  ")
}

/// Appends what computes an instance, and a line of what that read.
fn push_computed(
    alloc: Global,
    out: &mut String,
    page: &Page<'_>,
    reads: &Reads<'_>,
    instance: u32,
    width: usize,
) -> Result<(), AllocError>
    requires laid_out { IsLaidOut page.now }
    requires same { reads.now ≡ page.now }
    requires instance { IsInstanceOn page.now instance }
    ensures text { OnOk result (string_bytes out.new
        ≡ string_bytes out.old ++ computed_lines page.now width instance) }
{
    push_source(alloc, out, page, reads, instance)?;
    out.push_str("\n")?;
    let read = read_by(alloc, page, reads, instance)?;
    push_read_line(out, page, read.as_slice(), width)
}

/// Appends a line of what was read, behind so many spaces and three more; no line where nothing was
/// read.
fn push_read_line(
    out: &mut String,
    page: &Page<'_>,
    read: &[u32],
    width: usize,
) -> Result<(), AllocError>
    requires laid_out { IsLaidOut page.now }
    requires known { AllOf (IsInstanceOn page.now) read.now }
    ensures text { OnOk result (string_bytes out.new
        ≡ string_bytes out.old ++ read_line page.now width read.now) }
{
    if read.is_empty() {
        return Ok(());
    }
    push_spaces(out, width)?;
    out.push_str("   read")?;
    push_reads(out, page, read)?;
    out.push_str("\n")
}

/// Appends so many spaces.
fn push_spaces(out: &mut String, count: usize) -> Result<(), AllocError>
    ensures text { OnOk result (string_bytes out.new ≡ string_bytes out.old ++ spaces count) }
{
    for _space in 0..count {
        out.push_str(" ")?;
    }
    Ok(())
}
