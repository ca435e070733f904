//! Operators on numbers.
use crate::code::running::{Number, run, val};
use ftl_base::Width;
use ftl_visit::Instruction;
use std::test::Fail;

const SUMS: [(Width, Number, Number, Number); 9] = [
    (Width::Narrow, Some(2147483646), Some(1), Some(2147483647)),
    (Width::Narrow, Some(2147483647), Some(1), None),
    (
        Width::Narrow,
        Some(-2147483647),
        Some(-1),
        Some(-2147483648),
    ),
    (Width::Narrow, Some(-2147483648), Some(-1), None),
    (Width::Wide, Some(2147483647), Some(1), Some(2147483648)),
    (Width::Wide, Some(140737488355327), Some(1), None),
    (Width::Wide, Some(-140737488355328), Some(-1), None),
    (Width::Narrow, None, Some(0), None),
    (Width::Wide, Some(0), None, None),
];

const DIFFERENCES: [(Width, Number, Number, Number); 7] = [
    (Width::Narrow, Some(3), Some(10), Some(-7)),
    (Width::Narrow, Some(-2147483648), Some(1), None),
    (Width::Narrow, Some(-1), Some(-2147483648), Some(2147483647)),
    (Width::Narrow, Some(0), Some(-2147483648), None),
    (Width::Wide, Some(0), Some(-140737488355328), None),
    (Width::Narrow, None, None, None),
    (Width::Narrow, Some(1), None, None),
];

const PRODUCTS: [(Width, Number, Number, Number); 8] = [
    (Width::Narrow, Some(-3), Some(5), Some(-15)),
    (Width::Narrow, Some(65536), Some(32768), None),
    (Width::Narrow, Some(-65536), Some(32768), Some(-2147483648)),
    (Width::Wide, Some(65536), Some(32768), Some(2147483648)),
    (
        Width::Wide,
        Some(140737488355327),
        Some(140737488355327),
        None,
    ),
    (
        Width::Wide,
        Some(-140737488355328),
        Some(-140737488355328),
        None,
    ),
    (Width::Narrow, Some(0), None, None),
    (Width::Narrow, None, Some(0), None),
];

/// Numbers, and half of each.
const HALVES: [(Number, Number); 7] = [
    (Some(7), Some(3)),
    (Some(-7), Some(-4)),
    (Some(8), Some(4)),
    (Some(-8), Some(-4)),
    (Some(-1), Some(-1)),
    (Some(-2147483648), Some(-1073741824)),
    (None, None),
];

const NEGATED: [(Width, Number, Number); 6] = [
    (Width::Narrow, Some(2147483647), Some(-2147483647)),
    (Width::Narrow, Some(-2147483648), None),
    (Width::Wide, Some(-2147483648), Some(2147483648)),
    (Width::Wide, Some(-140737488355328), None),
    (Width::Narrow, Some(0), Some(0)),
    (Width::Narrow, None, None),
];

/// Two numbers, the least of them and the greatest.
const ENDS: [(Number, Number, Number, Number); 4] = [
    (Some(-3), Some(2), Some(-3), Some(2)),
    (Some(2), Some(-3), Some(-3), Some(2)),
    (None, Some(2), None, None),
    (Some(-3), None, None, None),
];

#[test]
fn sums(rt: HostRuntime) -> Result<(), Fail> {
    let code = [Instruction::Read, Instruction::Read, Instruction::Add];
    for &(width, a, b, sum) in &SUMS {
        let list = [Some(val(a)), Some(val(b))];
        assert_eq!(rt; run(rt.alloc(), width, &code, &list)?, sum);
    }
    Ok(())
}

#[test]
fn differences(rt: HostRuntime) -> Result<(), Fail> {
    let code = [Instruction::Read, Instruction::Read, Instruction::Subtract];
    for &(width, a, b, difference) in &DIFFERENCES {
        let list = [Some(val(a)), Some(val(b))];
        assert_eq!(rt; run(rt.alloc(), width, &code, &list)?, difference);
    }
    Ok(())
}

#[test]
fn products(rt: HostRuntime) -> Result<(), Fail> {
    let code = [Instruction::Read, Instruction::Read, Instruction::Multiply];
    for &(width, a, b, product) in &PRODUCTS {
        let list = [Some(val(a)), Some(val(b))];
        assert_eq!(rt; run(rt.alloc(), width, &code, &list)?, product);
    }
    Ok(())
}

#[test]
fn quotients_round_down(rt: HostRuntime) -> Result<(), Fail> {
    let code = [Instruction::Read, Instruction::Divide(2)];
    for &(a, half) in &HALVES {
        let list = [Some(val(a))];
        assert_eq!(rt; run(rt.alloc(), Width::Narrow, &code, &list)?, half);
    }
    Ok(())
}

#[test]
fn quotient_by_the_greatest_number(rt: HostRuntime) -> Result<(), Fail> {
    let code = [Instruction::Read, Instruction::Divide(2147483647)];
    let list = [Some(val(Some(-2147483648)))];
    assert_eq!(rt; run(rt.alloc(), Width::Narrow, &code, &list)?, Some(-2));
    Ok(())
}

#[test]
fn negated(rt: HostRuntime) -> Result<(), Fail> {
    let code = [Instruction::Read, Instruction::Negate];
    for &(width, a, negated) in &NEGATED {
        let list = [Some(val(a))];
        assert_eq!(rt; run(rt.alloc(), width, &code, &list)?, negated);
    }
    Ok(())
}

#[test]
fn least_and_greatest(rt: HostRuntime) -> Result<(), Fail> {
    let least_code = [Instruction::Read, Instruction::Read, Instruction::Least];
    let greatest_code = [Instruction::Read, Instruction::Read, Instruction::Greatest];
    for &(a, b, least, greatest) in &ENDS {
        let list = [Some(val(a)), Some(val(b))];
        assert_eq!(rt; run(rt.alloc(), Width::Narrow, &least_code, &list)?, least);
        assert_eq!(rt;
            run(rt.alloc(), Width::Narrow, &greatest_code, &list)?,
            greatest
        );
    }
    Ok(())
}

#[test]
fn what_a_fold_has_so_far(rt: HostRuntime) -> Result<(), Fail> {
    let code = [
        Instruction::Accumulator,
        Instruction::Number(3),
        Instruction::Subtract,
    ];
    assert_eq!(rt; run(rt.alloc(), Width::Narrow, &code, &[])?, Some(7));
    Ok(())
}
