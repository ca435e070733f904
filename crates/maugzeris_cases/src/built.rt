//! Pages built by calls.
use maugzeris::{Builder, Rules};
use std::alloc::{AllocError, Global};
use std::fmt::Write;

/// The most nodes that may be open.
const DEEPEST: u32 = 512;

/// Makes the calls of some lines, the first of which has the class of the root, and prints those
/// that are not taken.
pub(crate) fn built<'a>(
    alloc: Global,
    rules: &'a Rules<'a>,
    lines: &'a str,
    out: &mut String,
) -> Result<Builder<'a>, AllocError> {
    let (root, calls) = lines.split_once('\n').unwrap_or((lines, ""));
    let mut builder = rules.build(alloc, root);
    for line in calls.lines() {
        let (call, words) = line.split_once(' ').unwrap_or((line, ""));
        let taken = match call {
            "classes" => tell_classes(rules, out)?,
            "deep" => open_many(&mut builder, words, out)?,
            "close_all" => close_all(&mut builder),
            _ => add(&mut builder, call, words)?,
        };
        if !taken {
            writeln!(out, "not taken: {line}")?;
        }
    }
    Ok(builder)
}

/// Makes a call, where its test allows it.
fn add<'a>(builder: &mut Builder<'a>, call: &str, words: &'a str) -> Result<bool, AllocError> {
    match call {
        "number" => number(builder, words),
        "node" => node(builder, words),
        "list" => list(builder, words),
        "kid" => kid(builder, words),
        "close" => Ok(close(builder)),
        _ => Ok(false),
    }
}

fn number<'a>(builder: &mut Builder<'a>, words: &'a str) -> Result<bool, AllocError> {
    let (name, number) = words.split_once(' ').unwrap_or((words, ""));
    let value = number.parse::<i64>().unwrap_or(0);
    if !builder.takes_number(value) {
        return Ok(false);
    }
    builder.number(name, value)?;
    Ok(true)
}

fn node<'a>(builder: &mut Builder<'a>, words: &'a str) -> Result<bool, AllocError> {
    let (name, class) = words.split_once(' ').unwrap_or((words, ""));
    if !builder.takes_node() {
        return Ok(false);
    }
    builder.open_node(name, class)?;
    Ok(true)
}

fn list<'a>(builder: &mut Builder<'a>, name: &'a str) -> Result<bool, AllocError> {
    if !builder.takes_list() {
        return Ok(false);
    }
    builder.open_list(name)?;
    Ok(true)
}

fn kid<'a>(builder: &mut Builder<'a>, class: &'a str) -> Result<bool, AllocError> {
    if !builder.takes_kid() {
        return Ok(false);
    }
    builder.open_kid(class)?;
    Ok(true)
}

fn close(builder: &mut Builder<'_>) -> bool {
    if builder.is_whole() {
        return false;
    }
    builder.close();
    true
}

/// Closes all but the root.
fn close_all(builder: &mut Builder<'_>) -> bool {
    for _ in 0..DEEPEST * 2 {
        if !close(builder) {
            break;
        }
    }
    true
}

/// Opens so many nodes in one another, or as many as may be, and prints how many.
fn open_many<'a>(
    builder: &mut Builder<'a>,
    words: &'a str,
    out: &mut String,
) -> Result<bool, AllocError> {
    let (count, words) = words.split_once(' ').unwrap_or((words, ""));
    let most = count.parse::<u32>().unwrap_or(0);
    let opened = open_at_most(builder, most, words)?;
    writeln!(out, "opened {opened}")?;
    Ok(true)
}

fn open_at_most<'a>(
    builder: &mut Builder<'a>,
    most: u32,
    words: &'a str,
) -> Result<u32, AllocError> {
    for opened in 0..most {
        if !node(builder, words)? {
            return Ok(opened);
        }
    }
    Ok(most)
}

/// Prints how many classes there are, and their names.
fn tell_classes(rules: &Rules<'_>, out: &mut String) -> Result<bool, AllocError> {
    write!(out, "classes {}", rules.class_count())?;
    for class in 0..rules.class_count() {
        write!(out, " {}", rules.class_name(class))?;
    }
    writeln!(out, "")?;
    Ok(rules.find_class("Window").is_none())
}
