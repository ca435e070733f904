//! What parts of rules give.

use crate::code::part_in;
use ftl_base::{CodeStack, Val};
use ftl_visit::rule_values::run_code;
use ftl_visit::{Part, Programs, Runner};
use std::alloc::{AllocError, Global};
use std::fmt::Write;
use std::str::SplitWhitespace;

/// A part of a rule, and what it is run on.
#[derive(Drop)]
struct Run {
    rule: u32,
    part: Part,
    so_far: Val,
    reads: Vec<Option<Val>>,
}

/// What a request asks for by a rule, a part, what a fold has so far, and what is read.
fn run_in(alloc: Global, request: &str) -> Result<Option<Run>, AllocError> {
    let mut words = request.split_whitespace();
    let Some((rule, part)) = part_in(&mut words) else {
        return Ok(None);
    };
    let Some(so_far) = words.next().and_then(value_in) else {
        return Ok(None);
    };
    let reads = values_in(alloc, words)?;
    Ok(Some(Run {
        rule,
        part,
        so_far,
        reads,
    }))
}

/// What the words are.
fn values_in(alloc: Global, words: SplitWhitespace<'_>) -> Result<Vec<Option<Val>>, AllocError> {
    let mut values = Vec::new(alloc);
    for word in words {
        values.push(value_in(word))?;
    }
    Ok(values)
}

/// A number or Overflow; none for any other word.
fn value_in(word: &str) -> Option<Val> {
    match word {
        "overflow" => Some(Val::overflow()),
        _ => Some(Val::num(word.parse::<i64>().ok()?)),
    }
}

/// What the part gives that the request asks for.
pub(crate) fn write_run(
    out: &mut String,
    alloc: Global,
    programs: &Programs,
    request: &str,
) -> Result<(), AllocError> {
    match run_in(alloc, request)? {
        Some(run) => write_given(out, alloc, programs, &run),
        None => out.push_str(" no request"),
    }
}

fn write_given(
    out: &mut String,
    alloc: Global,
    programs: &Programs,
    run: &Run,
) -> Result<(), AllocError> {
    match given(alloc, programs, run)? {
        Some(value) => write_value(out, value),
        None => out.push_str(" no such part of so many reads"),
    }
}

fn given(alloc: Global, programs: &Programs, run: &Run) -> Result<Option<Val>, AllocError> {
    let mut stack = CodeStack::new(alloc, programs.max_stack())?;
    let Some(code) = programs.code(run.rule, run.part) else {
        return Ok(None);
    };
    if code.read_count() as usize != run.reads.len() {
        return Ok(None);
    }
    Ok(Some(run_code(&code, run.reads.as_slice(), run.so_far, &mut stack)))
}

/// What the part gives the second time, and how often it was run.
pub(crate) fn write_twice(
    out: &mut String,
    alloc: Global,
    programs: &Programs,
    request: &str,
) -> Result<(), AllocError> {
    match run_in(alloc, request)? {
        Some(run) => write_given_twice(out, alloc, programs, &run),
        None => out.push_str(" no request"),
    }
}

fn write_given_twice(
    out: &mut String,
    alloc: Global,
    programs: &Programs,
    run: &Run,
) -> Result<(), AllocError> {
    match given_twice(alloc, programs, run)? {
        Some((runs, value)) => {
            write!(out, " {runs} runs,")?;
            write_value(out, value)
        }
        None => out.push_str(" no such part of so many reads"),
    }
}

fn given_twice(
    alloc: Global,
    programs: &Programs,
    run: &Run,
) -> Result<Option<(u64, Val)>, AllocError> {
    let mut stack = CodeStack::new(alloc, programs.max_stack())?;
    let Some(code) = programs.code(run.rule, run.part) else {
        return Ok(None);
    };
    if code.read_count() as usize != run.reads.len() {
        return Ok(None);
    }
    let reads = run.reads.as_slice();
    let mut runner = Runner::new(programs);
    let _ = runner.run(run.rule, run.part, reads, run.so_far, &mut stack);
    let value = runner.run(run.rule, run.part, reads, run.so_far, &mut stack);
    Ok(Some((runner.runs(), value)))
}

fn write_value(out: &mut String, value: Val) -> Result<(), AllocError> {
    match value.get() {
        Some(number) => write!(out, " {number}"),
        None => out.push_str(" overflow"),
    }
}
