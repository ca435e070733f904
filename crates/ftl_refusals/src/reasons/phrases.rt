//! What was expected, in words.

use crate::reasons::expected::END;
use std::alloc::{AllocError, Global};

/// Words that are told as one: where the first ones are all expected, the phrase stands for all of
/// the others.
struct Group {
    when: &'static [&'static str],
    stands_for: &'static [&'static str],
    phrase: &'static str,
}

const VALUES: &[&str] = &[
    "x", "self", "this", "prev", "1", "acc", "last", "min", "max", "(", "-", "if",
];

const GROUPS: [Group; 8] = [
    Group {
        when: &["if", "(", "1"],
        stands_for: VALUES,
        phrase: "an expression",
    },
    Group {
        when: &["min", "(", "1"],
        stands_for: VALUES,
        phrase: "a value",
    },
    Group {
        when: &["acc", "(", "1"],
        stands_for: VALUES,
        phrase: "a number, a read or `(`",
    },
    Group {
        when: &["+", "*"],
        stands_for: &["+", "-", "*", "/"],
        phrase: "an operator",
    },
    Group {
        when: &["<", "=="],
        stands_for: &["<", "<=", ">", ">=", "==", "!="],
        phrase: "a comparison",
    },
    Group {
        when: &["x"],
        stands_for: &["x", "topdown", "bottomup", "inorder"],
        phrase: "a name",
    },
    Group {
        when: &["1"],
        stands_for: &["1"],
        phrase: "a number",
    },
    Group {
        when: &[END],
        stands_for: &[END],
        phrase: "the end of the section",
    },
];

/// Appends ``expected a name or `;` `` and a line feed; nothing where nothing is expected.
pub fn push_expected(
    alloc: Global,
    out: &mut String,
    expected: &[&'static str],
) -> Result<(), AllocError> {
    let mut phrases: Vec<&'static str> = Vec::new(alloc);
    let mut left: Vec<&'static str> = Vec::new(alloc);
    for word in expected {
        left.push(*word)?;
    }
    for group in &GROUPS {
        if has_all(left.as_slice(), group.when) {
            phrases.push(group.phrase)?;
            left = without(alloc, left.as_slice(), group.stands_for)?;
        }
    }
    push_list(out, phrases.as_slice(), left.as_slice())
}

/// Whether a word is one of these.
pub fn has(words: &[&'static str], word: &str) -> bool {
    for it in words {
        if *it == word {
            return true;
        }
    }
    false
}

fn has_all(words: &[&'static str], wanted: &[&'static str]) -> bool {
    for it in wanted {
        if !has(words, *it) {
            return false;
        }
    }
    true
}

fn without(
    alloc: Global,
    words: &[&'static str],
    others: &[&'static str],
) -> Result<Vec<&'static str>, AllocError> {
    let mut left = Vec::new(alloc);
    for it in words {
        if !has(others, *it) {
            left.push(*it)?;
        }
    }
    Ok(left)
}

/// Appends phrases and words as a list whose last part stands behind `or`.
fn push_list(
    out: &mut String,
    phrases: &[&'static str],
    words: &[&'static str],
) -> Result<(), AllocError> {
    let count = phrases.len().saturating_add(words.len());
    if count == 0 {
        return Ok(());
    }
    for (k, phrase) in phrases.iter().enumerate() {
        out.push_str(link(k, count))?;
        out.push_str(*phrase)?;
    }
    for (k, word) in words.iter().enumerate() {
        out.push_str(link(k.saturating_add(phrases.len()), count))?;
        out.push_str("`")?;
        out.push_str(*word)?;
        out.push_str("`")?;
    }
    out.push_str("\n")
}

/// What stands before part `k` of a list of so many.
fn link(k: usize, count: usize) -> &'static str {
    if k == 0 {
        "expected "
    } else if k.saturating_add(1) == count {
        " or "
    } else {
        ", "
    }
}
