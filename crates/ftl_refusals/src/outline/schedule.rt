//! The attributes that stand in a schedule.

use crate::tokens::{kind_at, word_at};
use ftl_tokens::{Kind, TokenizedText};
use std::alloc::{AllocError, Global};

/// An attribute in a list of a schedule.
#[derive(Clone, Copy)]
pub struct Entry {
    /// The token at which it begins.
    pub token: usize,
    /// Where it stands among stages that are not nested.
    pub outer: Pass,
    /// Where it stands in the schedule that its pass nests.
    pub inner: Option<Pass>,
}

/// A pass: the token at which it begins, and the number of its stage.
#[derive(Clone, Copy)]
pub struct Pass {
    pub token: usize,
    pub stage: usize,
}

/// Where a walk through the tokens of a schedule is.
#[derive(Clone, Copy)]
struct Walk {
    outer: Pass,
    inner: Option<Pass>,
    /// How many `{` are open.
    open: usize,
}

const START: Pass = Pass { token: 0, stage: 0 };

/// The attributes that stand in the lists of a schedule, in order.
pub fn schedule_entries(alloc: Global, scanned: &TokenizedText) -> Result<Vec<Entry>, AllocError> {
    let mut entries = Vec::new(alloc);
    let mut walk = Walk {
        outer: START,
        inner: None,
        open: 0,
    };
    for k in 0..scanned.list().len() {
        walk = walk_on(scanned, walk, k);
        if is_entry(scanned, k) {
            entries.push(Entry {
                token: k,
                outer: walk.outer,
                inner: walk.inner,
            })?;
        }
    }
    Ok(entries)
}

/// Whether an attribute's owner stands at token `k`.
fn is_entry(scanned: &TokenizedText, k: usize) -> bool {
    kind_at(scanned, k) == Some(Kind::Name)
        && kind_at(scanned, k.saturating_add(1)) == Some(Kind::Dot)
}

/// Whether a pass begins with token `k`.
fn is_pass(scanned: &TokenizedText, k: usize) -> bool {
    let word = word_at(scanned, k);
    (word == "topdown" || word == "bottomup" || word == "inorder")
        && kind_at(scanned, k.saturating_add(1)) == Some(Kind::LeftBrace)
        && !is_host(scanned, k)
}

/// Whether token `k` is the name behind `nest`.
fn is_host(scanned: &TokenizedText, k: usize) -> bool {
    match k.checked_sub(1) {
        Some(before) => word_at(scanned, before) == "nest",
        None => false,
    }
}

fn walk_on(scanned: &TokenizedText, walk: Walk, k: usize) -> Walk {
    if is_pass(scanned, k) {
        return at_pass(walk, k);
    }
    match kind_at(scanned, k) {
        Some(Kind::Semicolon) => next_stage(walk),
        Some(Kind::LeftBrace) => Walk {
            open: walk.open.saturating_add(1),
            inner: if k > 0 && is_host(scanned, k - 1) {
                Some(START)
            } else {
                walk.inner
            },
            outer: walk.outer,
        },
        Some(Kind::RightBrace) => Walk {
            open: walk.open.saturating_sub(1),
            inner: if walk.open <= 1 { None } else { walk.inner },
            outer: walk.outer,
        },
        _ => walk,
    }
}

fn at_pass(walk: Walk, k: usize) -> Walk {
    match walk.inner {
        Some(inner) => Walk {
            inner: Some(Pass {
                token: k,
                stage: inner.stage,
            }),
            outer: walk.outer,
            open: walk.open,
        },
        None => Walk {
            outer: Pass {
                token: k,
                stage: walk.outer.stage,
            },
            inner: None,
            open: walk.open,
        },
    }
}

fn next_stage(walk: Walk) -> Walk {
    match walk.inner {
        Some(inner) => Walk {
            inner: Some(Pass {
                token: inner.token,
                stage: inner.stage.saturating_add(1),
            }),
            outer: walk.outer,
            open: walk.open,
        },
        None => Walk {
            outer: Pass {
                token: walk.outer.token,
                stage: walk.outer.stage.saturating_add(1),
            },
            inner: None,
            open: walk.open,
        },
    }
}
