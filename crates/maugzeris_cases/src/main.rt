//! Prints what calls of the library answer. Each case on standard input begins by a line with `===`
//! and the width, `narrow` or `wide`. Below stand the texts, each behind a line of its own:
//! `--- grammar`, `--- schedule` where there is one, `--- document` or `--- built` or both, and
//! `--- steps`, a line for each call: `lay_out`, `lay_out_by WORKERS GRAIN`, `boxes`, `overflow`,
//! `nodes`, `value NODE NAME`, `set NODE NAME NUMBER` and `relayout`. Below `--- built` stand the
//! class of the root and then calls that build a page: `number NAME NUMBER`, `node NAME CLASS`,
//! `list NAME`, `kid CLASS`, `close`, `close_all`, `deep COUNT NAME CLASS`, which opens nodes in
//! one another, and `classes`. Printed is the line of the case, then what each call answers, or the
//! refusal: its status, its section and its line, and the byte that it tells; first of the document
//! and then of the page that was built.
#![tactic(auto)]

mod built;
mod case;
mod steps;
mod told;

use built::built;
use case::Case;
use ftl_edge::{StdSource, read_all};
use maugzeris::{Builder, Grammar, Page, Rules};
use std::alloc::{AllocError, Global};
use std::io;
use std::sync::Wait;
use std::thread::Threads;
use steps::take_steps;
use told::tell_refusal;

/// The most bytes of all cases.
const MAX_TEXT: usize = 1048576;

/// What stands on standard input; none where that is no text.
fn read_text(rt: &impl Input, alloc: Global) -> Option<String> {
    let mut source = StdSource::new(rt);
    let bytes = read_all(alloc, &mut source, MAX_TEXT).ok()?;
    String::from_utf8(bytes).ok()
}

/// What the calls of a case answer.
fn answer<R: Threads + Wait + Sync>(
    rt: &R,
    alloc: Global,
    case: &Case<'_>,
) -> Result<String, AllocError> {
    let mut out = String::new(alloc);
    match Grammar::new(alloc, case.grammar, case.width) {
        Ok(grammar) => answer_of_grammar(rt, alloc, case, &grammar, &mut out)?,
        Err(refusal) => tell_refusal(&mut out, &refusal)?,
    }
    Ok(out)
}

fn answer_of_grammar<R: Threads + Wait + Sync>(
    rt: &R,
    alloc: Global,
    case: &Case<'_>,
    grammar: &Grammar,
    out: &mut String,
) -> Result<(), AllocError> {
    match Rules::new(alloc, grammar, case.schedule) {
        Ok(rules) => answer_of_rules(rt, alloc, case, &rules, out),
        Err(refusal) => tell_refusal(out, &refusal),
    }
}

fn answer_of_rules<R: Threads + Wait + Sync>(
    rt: &R,
    alloc: Global,
    case: &Case<'_>,
    rules: &Rules<'_>,
    out: &mut String,
) -> Result<(), AllocError> {
    if let Some(text) = case.document {
        match Page::new(alloc, rules, text) {
            Ok(page) => take_steps(rt, alloc, case.steps, page, out)?,
            Err(refusal) => tell_refusal(out, &refusal)?,
        }
    }
    match case.built {
        Some(lines) => answer_of_calls(
            rt,
            alloc,
            case.steps,
            built(alloc, rules, lines, out)?,
            out,
        ),
        None => Ok(()),
    }
}

fn answer_of_calls<R: Threads + Wait + Sync>(
    rt: &R,
    alloc: Global,
    steps: &str,
    builder: Builder<'_>,
    out: &mut String,
) -> Result<(), AllocError> {
    if !builder.is_whole() {
        return out.push_str("not whole\n");
    }
    match builder.finish(alloc) {
        Ok(page) => take_steps(rt, alloc, steps, page, out),
        Err(refusal) => tell_refusal(out, &refusal),
    }
}

fn main(rt: HostRuntime) -> io::Result<()> {
    let Some(text) = read_text(&rt, rt.alloc()) else {
        println!(rt; "no text")?;
        return Ok(());
    };
    for part in text.as_str().split("=== ").skip(1) {
        let (heading, texts) = part.split_once('\n').unwrap_or((part, ""));
        let case = Case::new(heading, texts);
        print!(rt; "=== {heading}\n{}", answer(&rt, rt.alloc(), &case)?)?;
    }
    Ok(())
}
