//! Visits of classes.

use ftl_schedule::PassKind;
use ftl_visit::{RuleIndex, VisitOp, visit_list};
use std::alloc::{AllocError, Global};
use std::fmt::Write;
use std::str::SplitWhitespace;

/// The visit that a request asks for by its kind, its class and its attributes.
pub(crate) fn write_visit(
    out: &mut String,
    alloc: Global,
    index: &RuleIndex<'_>,
    request: &str,
) -> Result<(), AllocError> {
    let mut words = request.split_whitespace();
    let Some(kind) = words.next().and_then(kind_named) else {
        return out.push_str(" no request");
    };
    let Some(class) = words.next().and_then(number_in) else {
        return out.push_str(" no request");
    };
    let attrs = numbers_in(alloc, words)?;
    write_ops(out, alloc, index, kind, attrs.as_slice(), class)
}

fn numbers_in(alloc: Global, words: SplitWhitespace<'_>) -> Result<Vec<u32>, AllocError> {
    let mut numbers = Vec::new(alloc);
    for word in words {
        numbers.push(number_in(word).unwrap_or(u32::MAX))?;
    }
    Ok(numbers)
}

fn kind_named(word: &str) -> Option<PassKind> {
    match word {
        "topdown" => Some(PassKind::TopDown),
        "bottomup" => Some(PassKind::BottomUp),
        "inorder" => Some(PassKind::InOrder),
        _ => None,
    }
}

fn number_in(word: &str) -> Option<u32> {
    word.parse::<u32>().ok()
}

fn write_ops(
    out: &mut String,
    alloc: Global,
    index: &RuleIndex<'_>,
    kind: PassKind,
    attrs: &[u32],
    class: u32,
) -> Result<(), AllocError> {
    if class >= index.checked().class_count() {
        return out.push_str(" no class");
    }
    let ops = visit_list(alloc, index, kind, attrs, class)?;
    for op in ops.as_slice() {
        write_op(out, *op)?;
    }
    Ok(())
}

fn write_op(out: &mut String, op: VisitOp) -> Result<(), AllocError> {
    match op {
        VisitOp::Rule(rule) => write!(out, " {rule}"),
        VisitOp::Begin(child) => write!(out, " begin {child}"),
        VisitOp::Visit(child) => write!(out, " visit {child}"),
    }
}
