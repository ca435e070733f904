//! The calls of a case.
use crate::told::{tell_node, tell_touched, tell_value};
use maugzeris::Page;
use std::alloc::{AllocError, Global};
use std::fmt::Write;
use std::sync::Wait;
use std::thread::Threads;

/// Makes the calls of some lines, and prints what they answer.
pub(crate) fn take_steps<R: Threads + Wait + Sync>(
    rt: &R,
    alloc: Global,
    lines: &str,
    page: Page<'_>,
    out: &mut String,
) -> Result<(), AllocError> {
    let mut page = page;
    for line in lines.lines() {
        take_step(rt, alloc, line, &mut page, out)?;
    }
    Ok(())
}

fn take_step<R: Threads + Wait + Sync>(
    rt: &R,
    alloc: Global,
    line: &str,
    page: &mut Page<'_>,
    out: &mut String,
) -> Result<(), AllocError> {
    let (call, words) = line.split_once(' ').unwrap_or((line, ""));
    match call {
        "lay_out" => page.lay_out(alloc),
        "lay_out_by" => lay_out_by(rt, alloc, words, page),
        "set" => set(words, page, out),
        "value" => tell_value_of(words, page, out),
        "relayout" => relayout(alloc, page, out),
        _ => tell_page(alloc, call, page, out),
    }
}

/// Lays out by so many workers, with subtrees of so many nodes.
fn lay_out_by<R: Threads + Wait + Sync>(
    rt: &R,
    alloc: Global,
    words: &str,
    page: &mut Page<'_>,
) -> Result<(), AllocError> {
    let (workers, grain) = words.split_once(' ').unwrap_or((words, ""));
    page.lay_out_by(rt, alloc, number(workers), number(grain))
}

fn number(word: &str) -> u32 {
    word.parse::<u32>().unwrap_or(0)
}

/// Sets an input of a node, by its name.
fn set(words: &str, page: &mut Page<'_>, out: &mut String) -> Result<(), AllocError> {
    let (node, rest) = words.split_once(' ').unwrap_or((words, ""));
    let (name, value) = rest.split_once(' ').unwrap_or((rest, ""));
    let node = number(node);
    let value = value.parse::<i64>().unwrap_or(0);
    if let Some(attr) = attribute(page, node, name) {
        if page.takes(node, attr, value) {
            return page.set_input(node, attr, value);
        }
    }
    writeln!(out, "not taken")?;
    Ok(())
}

/// The attribute of a node that has this name.
fn attribute(page: &Page<'_>, node: u32, name: &str) -> Option<u32> {
    if node < page.node_count() {
        page.find_attribute(node, name)
    } else {
        None
    }
}

/// The value of an attribute of a node, by its name.
fn tell_value_of(words: &str, page: &Page<'_>, out: &mut String) -> Result<(), AllocError> {
    let (node, name) = words.split_once(' ').unwrap_or((words, ""));
    let node = number(node);
    if page.is_laid_out() && node < page.node_count() {
        if let Some(attr) = page.find_attribute(node, name) {
            return tell_value(out, page.value(node, attr));
        }
    }
    writeln!(out, "no value")?;
    Ok(())
}

fn relayout(alloc: Global, page: &mut Page<'_>, out: &mut String) -> Result<(), AllocError> {
    if !page.is_laid_out() {
        writeln!(out, "not laid out")?;
        return Ok(());
    }
    let touched = page.relayout(alloc)?;
    tell_touched(out, &touched)
}

/// What a page shows that was laid out.
fn tell_page(
    alloc: Global,
    call: &str,
    page: &Page<'_>,
    out: &mut String,
) -> Result<(), AllocError> {
    if !page.is_laid_out() {
        writeln!(out, "not laid out")?;
        return Ok(());
    }
    match call {
        "boxes" => {
            let boxes = page.boxes(alloc)?;
            out.push_str(str::from_utf8(boxes.as_slice()).unwrap_or("no text\n"))
        }
        "overflow" => {
            let overflows = page.shows_overflow(alloc)?;
            writeln!(out, "overflow {overflows}")?;
            Ok(())
        }
        "nodes" => tell_nodes(page, out),
        _ => {
            writeln!(out, "no call {call}")?;
            Ok(())
        }
    }
}

fn tell_nodes(page: &Page<'_>, out: &mut String) -> Result<(), AllocError> {
    for node in page.nodes() {
        if node.is_laid_out() {
            tell_node(out, node)?;
        }
    }
    Ok(())
}
