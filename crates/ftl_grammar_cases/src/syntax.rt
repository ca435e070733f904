//! What is found of a grammar's text, in words.

pub(crate) mod rows;
mod shape;

use ftl_grammar::{Class, Grammar, Interface, SyntaxFault, read_grammar};
use ftl_tokens::{Scanned, tokens};
use shape::write_shape;
use std::alloc::{AllocError, Global};
use std::fmt::Write;

/// The most bytes of a text.
const MAX_TEXT: usize = 67108864;

/// What of a grammar is written when it is read.
#[derive(Clone, Copy)]
enum Wish {
    Nothing,
    Counts,
    /// A class and one of its rules.
    Rule(u32, u32),
}

/// Whether a text is read, or where it goes wrong.
#[derive(Clone, Copy)]
enum Reading {
    Read,
    Syntax(u32),
    TooDeep(u32),
    OutOfMemory,
    NoTokens,
}

/// Whether a text is read, or where it goes wrong.
pub(crate) fn write_answer(alloc: Global, out: &mut String, text: &str) -> Result<(), AllocError> {
    match read_text(alloc, out, text, Wish::Nothing)? {
        Reading::Read => out.push_str("read"),
        Reading::Syntax(at) => write!(out, "syntax at {at}"),
        Reading::TooDeep(at) => write!(out, "too deep at {at}"),
        Reading::OutOfMemory => out.push_str("out of memory"),
        Reading::NoTokens => out.push_str("no tokens"),
    }
}

/// How many fronts of a text of ASCII are read, and of how many the answer is no place in them.
pub(crate) fn write_cuts(alloc: Global, out: &mut String, text: &str) -> Result<(), AllocError> {
    let mut read = 0u32;
    let mut odd = 0u32;
    for len in 0..text.len() {
        let front = text.get(..len).unwrap_or("");
        match read_text(alloc, out, front, Wish::Nothing)? {
            Reading::Read => read = read.wrapping_add(1),
            Reading::Syntax(at) if at as usize <= len => (),
            _ => odd = odd.wrapping_add(1),
        }
    }
    write!(out, "{read} read, {odd} odd")
}

/// Of each interface its name, its attributes and those it shows, then of each class its name, its
/// own attributes, its children and its rules.
pub(crate) fn write_counts(alloc: Global, out: &mut String, text: &str) -> Result<(), AllocError> {
    read_text(alloc, out, text, Wish::Counts)?;
    Ok(())
}

/// The class and the rule with the numbers that the row begins with, and the rule form by form.
pub(crate) fn write_rule(
    alloc: Global,
    out: &mut String,
    text: &str,
    row: &str,
) -> Result<(), AllocError> {
    let mut words = row.split_whitespace();
    let class = words.next().unwrap_or("").parse::<u32>().unwrap_or(0);
    let rule = words.next().unwrap_or("").parse::<u32>().unwrap_or(0);
    read_text(alloc, out, text, Wish::Rule(class, rule))?;
    Ok(())
}

// Reads a text, and of its grammar writes what is wished.
fn read_text(
    alloc: Global,
    out: &mut String,
    text: &str,
    wish: Wish,
) -> Result<Reading, AllocError> {
    if text.len() > MAX_TEXT {
        return Ok(Reading::NoTokens);
    }
    match tokens(alloc, String::from_str(alloc, text)?) {
        Ok(scanned) => read_tokens(alloc, out, &scanned, wish),
        Err(_) => Ok(Reading::NoTokens),
    }
}

// The one function that owns a grammar.
fn read_tokens(
    alloc: Global,
    out: &mut String,
    scanned: &Scanned,
    wish: Wish,
) -> Result<Reading, AllocError> {
    match read_grammar(alloc, scanned) {
        Ok(grammar) => write_wish(alloc, out, &grammar, wish),
        Err(SyntaxFault::Syntax { at }) => Ok(Reading::Syntax(at)),
        Err(SyntaxFault::TooDeep { at }) => Ok(Reading::TooDeep(at)),
        Err(SyntaxFault::OutOfMemory) => Ok(Reading::OutOfMemory),
    }
}

fn write_wish(
    alloc: Global,
    out: &mut String,
    grammar: &Grammar,
    wish: Wish,
) -> Result<Reading, AllocError> {
    match wish {
        Wish::Nothing => (),
        Wish::Counts => write_all_counts(out, grammar)?,
        Wish::Rule(class, rule) => write_rule_of(alloc, out, grammar, class, rule)?,
    }
    Ok(Reading::Read)
}

fn write_all_counts(out: &mut String, grammar: &Grammar) -> Result<(), AllocError> {
    out.push_str(grammar.root.text())?;
    for interface in grammar.interfaces.as_slice() {
        write_interface(out, interface)?;
    }
    for class in grammar.classes.as_slice() {
        write_class(out, class)?;
    }
    Ok(())
}

fn write_interface(out: &mut String, interface: &Interface) -> Result<(), AllocError> {
    let (attrs, shown) = (interface.attrs.len(), interface.shown.len());
    write!(out, ", {} {attrs} {shown}", interface.name.text())
}

fn write_class(out: &mut String, class: &Class) -> Result<(), AllocError> {
    let (attrs, children, rules) = (class.attrs.len(), class.children.len(), class.rules.len());
    write!(out, ", {} {attrs} {children} {rules}", class.name.text())
}

fn write_rule_of(
    alloc: Global,
    out: &mut String,
    grammar: &Grammar,
    class: u32,
    rule: u32,
) -> Result<(), AllocError> {
    let Some(found) = grammar.classes.get(class as usize) else {
        return Ok(());
    };
    let Some(found) = found.rules.get(rule as usize) else {
        return Ok(());
    };
    write!(out, "{class} {rule} ")?;
    write_shape(alloc, out, found)
}
