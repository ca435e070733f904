//! Where a value comes from: the instances that it was computed from, as a tree.

ghost use Rattle.std.specs.Prelude.{◌≡◌, ◌++◌, codes, None, IfOk, IfSome, OnOk};
ghost use Rattle.std.specs.String.{string_bytes};
ghost use Rattle.maugzeris.specs.pages.Instances.{IsInstanceOn, reads_on};
ghost use Rattle.maugzeris.specs.pages.PageState.{IsLaidOut};
ghost use Rattle.ftl_showing.specs.lines.Details.{instance_text};
ghost use Rattle.ftl_showing.specs.lines.Whys.{AppendsBeginning, AppendsWhyLines, AreNumbersOn};
ghost use Rattle.ftl_showing.specs.lines.Whys.{BeginsOverflow, IsOverflowOn, IsStepOn, IsWhyText};
ghost use Rattle.ftl_showing.specs.lines.Whys.{beginning_line, left_out_line, remark, why_line};

use crate::lines::depth::push_indentation;
use crate::lines::instance::{push_instance, push_name, push_source, read_by};
use crate::lines::walk::{Seen, Step, Walk, first_overflow, is_overflow};
use itoa::Buffer;
use maugzeris::{Page, Reads};
use std::alloc::{AllocError, Global};

/// An instance and below it, a step further to the right, those that it read, down to the inputs;
/// what one read is told where it stands first. At most so many lines, and then how many are left
/// out. Below an Overflow it is told where that begins.
pub fn why_text(
    alloc: Global,
    page: &Page<'_>,
    reads: &Reads<'_>,
    instance: u32,
    most: u32,
) -> Result<String, AllocError>
    requires laid_out { IsLaidOut page.now }
    requires same { reads.now ≡ page.now }
    requires instance { IsInstanceOn page.now instance }
    ensures text { IfOk result (λ t. IsWhyText page.now (string_bytes t)) }
{
    let mut out = String::new(alloc);
    let left_out = push_lines(alloc, &mut out, page, reads, instance, most)?;
    push_left_out(&mut out, left_out)?;
    push_beginning(alloc, &mut out, page, reads, instance)?;
    Ok(out)
}

/// Appends the lines of an instance and of what it comes from, at most so many, and tells how many
/// are left out.
fn push_lines(
    alloc: Global,
    out: &mut String,
    page: &Page<'_>,
    reads: &Reads<'_>,
    instance: u32,
    most: u32,
) -> Result<u64, AllocError>
    requires laid_out { IsLaidOut page.now }
    requires same { reads.now ≡ page.now }
    requires instance { IsInstanceOn page.now instance }
    ensures lines { IfOk result
        (λ n. AppendsWhyLines page.now (string_bytes out.old) (string_bytes out.new)) }
{
    let mut walk = Walk::new(alloc, page, instance)?;
    for _line in 0..most {
        let Some(step) = walk.next(alloc, page, reads)? else {
            return Ok(0);
        };
        push_line(alloc, out, page, reads, step)?;
    }
    count_of(alloc, page, reads, &mut walk)
}

/// How many steps a walk has left.
fn count_of(
    alloc: Global,
    page: &Page<'_>,
    reads: &Reads<'_>,
    walk: &mut Walk,
) -> Result<u64, AllocError>
    requires laid_out { IsLaidOut page.now }
    requires same { reads.now ≡ page.now }
{
    for count in 0..u64::MAX {
        if walk.next(alloc, page, reads)?.is_none() {
            return Ok(count);
        }
    }
    Ok(u64::MAX)
}

/// Appends how many steps are left out; nothing where none are.
fn push_left_out(out: &mut String, left_out: u64) -> Result<(), AllocError>
    ensures text { OnOk result (string_bytes out.new
        ≡ string_bytes out.old ++ left_out_line left_out) }
{
    if left_out == 0 {
        return Ok(());
    }
    out.push_str("... ")?;
    out.push_str(Buffer::new().format(left_out))?;
    out.push_str(" more\n")
}

/// Appends the line of a step.
fn push_line(
    alloc: Global,
    out: &mut String,
    page: &Page<'_>,
    reads: &Reads<'_>,
    step: Step,
) -> Result<(), AllocError>
    requires laid_out { IsLaidOut page.now }
    requires same { reads.now ≡ page.now }
    requires step { IsStepOn page.now step }
    ensures text { OnOk result (string_bytes out.new
        ≡ string_bytes out.old ++ why_line page.now step) }
{
    push_indentation(out, step.depth)?;
    push_instance(out, page, step.instance)?;
    out.push_str("  ")?;
    push_remark(alloc, out, page, reads, step.instance, step.seen)?;
    out.push_str("\n")
}

/// Appends what is said of an instance behind its value.
fn push_remark(
    alloc: Global,
    out: &mut String,
    page: &Page<'_>,
    reads: &Reads<'_>,
    instance: u32,
    seen: Seen,
) -> Result<(), AllocError>
    requires same { reads.now ≡ page.now }
    requires instance { IsInstanceOn page.now instance }
    ensures text { OnOk result (string_bytes out.new
        ≡ string_bytes out.old ++ remark page.now instance seen) }
{
    match seen {
        Seen::Before => out.push_str("above"),
        Seen::First => push_source(alloc, out, page, reads, instance),
        Seen::Beginning => {
            push_source(alloc, out, page, reads, instance)?;
            out.push_str("  overflow begins here")
        }
    }
}

/// Appends where an Overflow begins; nothing for a number.
fn push_beginning(
    alloc: Global,
    out: &mut String,
    page: &Page<'_>,
    reads: &Reads<'_>,
    instance: u32,
) -> Result<(), AllocError>
    requires laid_out { IsLaidOut page.now }
    requires same { reads.now ≡ page.now }
    requires instance { IsInstanceOn page.now instance }
    ensures beginning { OnOk result
        (AppendsBeginning page.now (string_bytes out.old) (string_bytes out.new)) }
{
    match beginning(alloc, page, reads, instance)? {
        Some(first) => push_beginning_line(out, page, first),
        None => Ok(()),
    }
}

/// Appends the line of an instance at which an Overflow begins.
fn push_beginning_line(out: &mut String, page: &Page<'_>, instance: u32) -> Result<(), AllocError>
    requires instance { IsInstanceOn page.now instance }
    ensures text { OnOk result (string_bytes out.new
        ≡ string_bytes out.old ++ beginning_line page.now instance) }
{
    out.push_str("overflow begins at ")?;
    push_name(out, page, instance)?;
    out.push_str("\n")
}

/// Where the Overflow of an instance begins: at itself, where no read of it is Overflow, or where
/// that of its first read begins that is. None of a number.
fn beginning(
    alloc: Global,
    page: &Page<'_>,
    reads: &Reads<'_>,
    instance: u32,
) -> Result<Option<u32>, AllocError>
    requires laid_out { IsLaidOut page.now }
    requires same { reads.now ≡ page.now }
    requires instance { IsInstanceOn page.now instance }
    ensures begins { IfOk result (λ first. IfSome first (BeginsOverflow page.now)) }
{
    if !is_overflow(page, instance) {
        return Ok(None);
    }
    let mut at = instance;
    for _read in 0..page.instance_count() {
        match overflow_read(alloc, page, reads, at)? {
            Some(next) => at = next,
            None => return Ok(Some(at)),
        }
    }
    Ok(None)
}

/// The first Overflow that an instance reads.
fn overflow_read(
    alloc: Global,
    page: &Page<'_>,
    reads: &Reads<'_>,
    instance: u32,
) -> Result<Option<u32>, AllocError>
    requires laid_out { IsLaidOut page.now }
    requires same { reads.now ≡ page.now }
    requires instance { IsInstanceOn page.now instance }
    ensures overflow { IfOk result (λ first. IfSome first (IsOverflowOn page.now)) }
    ensures none { IfOk result
        (λ first. first ≡ None → AreNumbersOn page.now (reads_on page.now instance)) }
{
    let read = read_by(alloc, page, reads, instance)?;
    Ok(first_overflow(page, read.as_slice()))
}
