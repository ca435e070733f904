//! Requests on code and visits, and their answers, a line each.

use crate::code::write_code;
use crate::runs::{write_run, write_twice};
use crate::visits::write_visit;
use ftl_checked::Checked;
use ftl_visit::{Programs, RuleIndex, compile};
use std::alloc::{AllocError, Global};
use std::fmt::Write;

/// The answers to these requests on a grammar.
pub(crate) fn write_indexed(
    out: &mut String,
    alloc: Global,
    checked: &Checked,
    requests: &str,
) -> Result<(), AllocError> {
    let index = RuleIndex::new(alloc, checked)?;
    write_compiled(out, alloc, checked, &index, requests)
}

fn write_compiled(
    out: &mut String,
    alloc: Global,
    checked: &Checked,
    index: &RuleIndex<'_>,
    requests: &str,
) -> Result<(), AllocError> {
    let programs = compile(alloc, checked)?;
    write_answers(out, alloc, index, &programs, requests)
}

fn write_answers(
    out: &mut String,
    alloc: Global,
    index: &RuleIndex<'_>,
    programs: &Programs,
    requests: &str,
) -> Result<(), AllocError> {
    for request in requests.lines() {
        out.push_str(request)?;
        out.push_str(" =")?;
        write_answer(out, alloc, index, programs, request)?;
        out.push('\n')?;
    }
    Ok(())
}

fn write_answer(
    out: &mut String,
    alloc: Global,
    index: &RuleIndex<'_>,
    programs: &Programs,
    request: &str,
) -> Result<(), AllocError> {
    let (verb, rest) = request.split_once(' ').unwrap_or((request, ""));
    match verb {
        "visit" => write_visit(out, alloc, index, rest),
        "run" => write_run(out, alloc, programs, rest),
        "twice" => write_twice(out, alloc, programs, rest),
        "code" => write_code(out, programs, rest),
        "room" => write!(out, " {}", programs.max_stack()),
        _ => out.push_str(" no request"),
    }
}
