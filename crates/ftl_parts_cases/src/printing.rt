// Words of cells as text.
use ftl_base::{Val, val_of};
use std::alloc::AllocError;
use std::fmt::Write;

/// From so many cells on, numbers that are those of the cells are printed as the first and last.
const MANY: usize = 20;

/// The values that the words stand for, each after a space.
pub(crate) fn write_words(out: &mut String, words: &[u64]) -> Result<(), AllocError> {
    if words.len() > MANY && are_own_numbers(words) {
        return write!(out, " 0 to {}", words.len() - 1);
    }
    for word in words {
        write_word(out, *word)?;
    }
    Ok(())
}

/// Whether each cell holds its own number.
fn are_own_numbers(words: &[u64]) -> bool {
    words.iter().enumerate().all(|(cell, word)| val_of(*word) == Some(Val::num(cell as i64)))
}

fn write_word(out: &mut String, word: u64) -> Result<(), AllocError> {
    match val_of(word).map(|val| val.get()) {
        Some(Some(number)) => write!(out, " {number}"),
        Some(None) => out.push_str(" overflow"),
        None => out.push_str(" empty"),
    }
}

/// What is to be printed, if it is not what was printed before.
pub(crate) fn write_new(
    out: &mut String,
    before: String,
    shown: String,
) -> Result<String, AllocError> {
    if shown.as_str() != before.as_str() {
        writeln!(out, "{shown}")?;
    }
    Ok(shown)
}
