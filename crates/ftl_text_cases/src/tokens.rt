//! Tokens, names and numbers.

ghost use Rattle.ftl_tokens.specs.scanner.Tokenized.{IsGreatestNumber};

use ftl_tokens::{Kind, Name, Scanned, Token, WideScanned, write_fixed, write_name, write_number};
use std::alloc::{AllocError, Global};
use std::fmt::Write;

/// Where the numbers of a document end.
pub(crate) fn greatest(question: &str) -> u64
    ensures limit { IsGreatestNumber result }
{
    if question.starts_with("wide") {
        140737488355327
    } else {
        2147483647
    }
}

/// Writes the kinds of the tokens.
pub(crate) fn write_kinds(out: &mut String, scanned: &Scanned) -> Result<(), AllocError> {
    for token in scanned.list() {
        let kind = token.kind;
        write!(out, " {kind:?}")?;
    }
    Ok(())
}

/// Writes the texts of the tokens, with their places.
pub(crate) fn write_places(out: &mut String, scanned: &Scanned) -> Result<(), AllocError> {
    for (k, token) in scanned.list().iter().enumerate() {
        out.push(' ')?;
        out.push_str(scanned.slice(k))?;
        write_place(out, token)?;
    }
    Ok(())
}

fn write_place(out: &mut String, token: &Token) -> Result<(), AllocError> {
    let (start, end) = (token.start, token.end);
    write!(out, "[{start}..{end}]")
}

/// Writes the numbers among the tokens.
pub(crate) fn write_numbers(out: &mut String, scanned: &Scanned) -> Result<(), AllocError> {
    for (k, token) in scanned.list().iter().enumerate() {
        if token.kind == Kind::Number {
            write_spaced(out, u64::from(scanned.number(k)))?;
        }
    }
    Ok(())
}

/// Writes where the numbers end, and those among the tokens.
pub(crate) fn write_limited(out: &mut String, scanned: &WideScanned) -> Result<(), AllocError> {
    write_spaced(out, scanned.greatest())?;
    out.push(':')?;
    for (k, token) in scanned.list().iter().enumerate() {
        if token.kind == Kind::Number {
            write_spaced(out, scanned.number(k))?;
        }
    }
    Ok(())
}

fn write_spaced(out: &mut String, number: u64) -> Result<(), AllocError> {
    out.push(' ')?;
    write_number(out, number, "")
}

/// Writes the first of two names, and whether it is equal to its copy and to the second.
pub(crate) fn write_names(alloc: Global, out: &mut String, pair: &str) -> Result<(), AllocError> {
    let (first, second) = pair.split_once(' ').unwrap_or((pair, ""));
    let name = Name::new(alloc, first)?;
    write_compared(alloc, out, &name, second)
}

fn write_compared(
    alloc: Global,
    out: &mut String,
    name: &Name,
    second: &str,
) -> Result<(), AllocError> {
    out.push(' ')?;
    out.push_str(name.text())?;
    write_equal(out, name, &name.copy()?)?;
    write_equal(out, name, &Name::new(alloc, second)?)
}

fn write_equal(out: &mut String, name: &Name, other: &Name) -> Result<(), AllocError> {
    let words = if name == other {
        " equal to "
    } else {
        " other than "
    };
    out.push_str(words)?;
    out.push_str(other.text())
}

/// Writes tokens with and without white space between.
pub(crate) fn write_gaps(alloc: Global, out: &mut String) -> Result<(), AllocError> {
    out.push(' ')?;
    write_named(alloc, out, "Box", "")?;
    write_fixed(out, Kind::Dot, "")?;
    write_named(alloc, out, "x", " ")?;
    write_fixed(out, Kind::OrOr, "\n")?;
    write_number(out, 140737488355327, "")
}

fn write_named(alloc: Global, out: &mut String, name: &str, gap: &str) -> Result<(), AllocError> {
    write_name(out, &Name::new(alloc, name)?, gap)
}
