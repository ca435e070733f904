//! Code of parts of rules.

use ftl_base::{Cmp, Truth};
use ftl_visit::{Instruction, Part, Programs};
use std::alloc::AllocError;
use std::fmt::Write;
use std::str::SplitWhitespace;

/// The rule and the part that these words name.
pub(crate) fn part_in(words: &mut SplitWhitespace<'_>) -> Option<(u32, Part)> {
    let rule = words.next()?.parse::<u32>().ok()?;
    let part = part_named(words.next()?)?;
    Some((rule, part))
}

fn part_named(word: &str) -> Option<Part> {
    match word {
        "plain" => Some(Part::Plain),
        "first" => Some(Part::First),
        "then" => Some(Part::Then),
        "from" => Some(Part::From),
        "with" => Some(Part::With),
        _ => None,
    }
}

/// The code that a request asks for by a rule and a part, and how many reads it takes.
pub(crate) fn write_code(
    out: &mut String,
    programs: &Programs,
    request: &str,
) -> Result<(), AllocError> {
    let Some((rule, part)) = part_in(&mut request.split_whitespace()) else {
        return out.push_str(" no request");
    };
    let Some(code) = programs.code(rule, part) else {
        return out.push_str(" no such part");
    };
    write!(out, " {} reads:", code.read_count())?;
    for instruction in code.instructions() {
        write_instruction(out, *instruction)?;
    }
    Ok(())
}

fn write_instruction(out: &mut String, instruction: Instruction) -> Result<(), AllocError> {
    match instruction {
        Instruction::Number(number) => write!(out, " {number}"),
        Instruction::Divide(number) => write!(out, " divide-by-{number}"),
        Instruction::Compare(comparison) => out.push_str(comparison_word(comparison)),
        Instruction::Constant(number) => write!(out, " constant {number}"),
        Instruction::Known(truth) => out.push_str(truth_word(truth)),
        other => out.push_str(word_of(other)),
    }
}

fn word_of(instruction: Instruction) -> &'static str {
    match instruction {
        Instruction::Read => " read",
        Instruction::Last => " last",
        Instruction::Accumulator => " acc",
        Instruction::Negate => " negate",
        Instruction::Add => " add",
        Instruction::Subtract => " subtract",
        Instruction::Multiply => " multiply",
        Instruction::Least => " least",
        Instruction::Greatest => " greatest",
        Instruction::Choose => " choose",
        Instruction::Not => " not",
        Instruction::Both => " both",
        Instruction::Either => " either",
        Instruction::Number(_)
        | Instruction::Divide(_)
        | Instruction::Compare(_)
        | Instruction::Constant(_)
        | Instruction::Known(_) => "",
    }
}

fn truth_word(truth: Truth) -> &'static str {
    match truth {
        Truth::Yes => " yes",
        Truth::No => " no",
        Truth::Overflow => " overflow",
    }
}

fn comparison_word(comparison: Cmp) -> &'static str {
    match comparison {
        Cmp::Less => " less",
        Cmp::LessEq => " less-or-equal",
        Cmp::More => " more",
        Cmp::MoreEq => " more-or-equal",
        Cmp::Equal => " equal",
        Cmp::Unequal => " unequal",
    }
}
