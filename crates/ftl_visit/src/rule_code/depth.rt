ghost use Rattle.std.specs.Prelude.{◌≡◌, ◌≤◌};
ghost use Rattle.ftl_visit.specs.rule_code.Depth.{depth_of, values_after, truths_after};

use crate::rule_code::instruction::Instruction;

/// How high the stacks of values and of truths get while code runs: the room that it needs.
pub fn depth_of(code: &[Instruction]) -> usize
    ensures exact { result ≡ depth_of code.now }
{
    let mut values = 0usize;
    let mut truths = 0usize;
    let mut depth = 0usize;
    for instruction in code {
        values = values_after(*instruction, values);
        truths = truths_after(*instruction, truths);
        depth = depth.max(values.max(truths));
    }
    depth
}

fn values_after(instruction: Instruction, before: usize) -> usize
    requires bound { before ≤ 9223372036854775807 }
    ensures after { result ≡ values_after instruction before }
{
    match instruction {
        Instruction::Number(_)
        | Instruction::Read
        | Instruction::Last
        | Instruction::Accumulator
        | Instruction::Constant(_) => before + 1,
        Instruction::Add
        | Instruction::Subtract
        | Instruction::Multiply
        | Instruction::Least
        | Instruction::Greatest
        | Instruction::Choose => before.saturating_sub(1),
        Instruction::Compare(_) => before.saturating_sub(2),
        Instruction::Negate
        | Instruction::Divide(_)
        | Instruction::Not
        | Instruction::Both
        | Instruction::Either
        | Instruction::Known(_) => before,
    }
}

fn truths_after(instruction: Instruction, before: usize) -> usize
    requires bound { before ≤ 9223372036854775807 }
    ensures after { result ≡ truths_after instruction before }
{
    match instruction {
        Instruction::Last | Instruction::Compare(_) | Instruction::Known(_) => before + 1,
        Instruction::Choose | Instruction::Both | Instruction::Either => before.saturating_sub(1),
        Instruction::Number(_)
        | Instruction::Read
        | Instruction::Accumulator
        | Instruction::Negate
        | Instruction::Add
        | Instruction::Subtract
        | Instruction::Multiply
        | Instruction::Divide(_)
        | Instruction::Least
        | Instruction::Greatest
        | Instruction::Not
        | Instruction::Constant(_) => before,
    }
}
