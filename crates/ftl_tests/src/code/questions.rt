//! Comparisons, truths and branches. Where a question is put, the code gives 1 where it holds and 0
//! where it does not.
use crate::code::running::{Number, run, val};
use ftl_base::{Cmp, Width};
use ftl_visit::Instruction;
use std::test::Fail;

const COMPARED: [(Cmp, Number, Number, Number); 15] = [
    (Cmp::Less, Some(1), Some(2), Some(1)),
    (Cmp::Less, Some(2), Some(2), Some(0)),
    (Cmp::LessEq, Some(2), Some(2), Some(1)),
    (Cmp::LessEq, Some(3), Some(2), Some(0)),
    (Cmp::More, Some(3), Some(2), Some(1)),
    (Cmp::More, Some(2), Some(2), Some(0)),
    (Cmp::MoreEq, Some(2), Some(2), Some(1)),
    (Cmp::MoreEq, Some(1), Some(2), Some(0)),
    (Cmp::Equal, Some(-5), Some(-5), Some(1)),
    (Cmp::Equal, Some(-5), Some(5), Some(0)),
    (Cmp::Unequal, Some(-5), Some(5), Some(1)),
    (Cmp::Unequal, Some(5), Some(5), Some(0)),
    (Cmp::Equal, None, None, None),
    (Cmp::Less, None, Some(5), None),
    (Cmp::Unequal, Some(5), None, None),
];

/// Two numbers, whether both are negative, and whether one is.
const NEGATIVE: [(Number, Number, Number, Number); 7] = [
    (Some(-1), Some(-1), Some(1), Some(1)),
    (Some(-1), Some(1), Some(0), Some(1)),
    (Some(1), Some(-1), Some(0), Some(1)),
    (Some(1), Some(1), Some(0), Some(0)),
    (None, Some(1), None, None),
    (Some(-1), None, None, None),
    (None, None, None, None),
];

const DENIED: [(Number, Number); 3] = [(Some(-1), Some(0)), (Some(1), Some(1)), (None, None)];

/// A number, what is taken where it is negative, what is taken where it is not, and what is given.
const BRANCHES: [(Number, Number, Number, Number); 6] = [
    (Some(-1), Some(8), Some(9), Some(8)),
    (Some(0), Some(8), Some(9), Some(9)),
    (Some(-1), Some(8), None, Some(8)),
    (Some(0), None, Some(9), Some(9)),
    (Some(-1), None, Some(9), None),
    (None, Some(8), Some(8), None),
];

#[test]
fn compared(rt: HostRuntime) -> Result<(), Fail> {
    for &(cmp, a, b, holds) in &COMPARED {
        let code = [
            Instruction::Read,
            Instruction::Read,
            Instruction::Compare(cmp),
            Instruction::Number(1),
            Instruction::Number(0),
            Instruction::Choose,
        ];
        let list = [Some(val(a)), Some(val(b))];
        assert_eq!(rt; run(rt.alloc(), Width::Narrow, &code, &list)?, holds);
    }
    Ok(())
}

#[test]
fn both(rt: HostRuntime) -> Result<(), Fail> {
    let code = [
        Instruction::Read,
        Instruction::Number(0),
        Instruction::Compare(Cmp::Less),
        Instruction::Read,
        Instruction::Number(0),
        Instruction::Compare(Cmp::Less),
        Instruction::Both,
        Instruction::Number(1),
        Instruction::Number(0),
        Instruction::Choose,
    ];
    for &(a, b, holds, _) in &NEGATIVE {
        let list = [Some(val(a)), Some(val(b))];
        assert_eq!(rt; run(rt.alloc(), Width::Narrow, &code, &list)?, holds);
    }
    Ok(())
}

#[test]
fn either(rt: HostRuntime) -> Result<(), Fail> {
    let code = [
        Instruction::Read,
        Instruction::Number(0),
        Instruction::Compare(Cmp::Less),
        Instruction::Read,
        Instruction::Number(0),
        Instruction::Compare(Cmp::Less),
        Instruction::Either,
        Instruction::Number(1),
        Instruction::Number(0),
        Instruction::Choose,
    ];
    for &(a, b, _, holds) in &NEGATIVE {
        let list = [Some(val(a)), Some(val(b))];
        assert_eq!(rt; run(rt.alloc(), Width::Narrow, &code, &list)?, holds);
    }
    Ok(())
}

#[test]
fn denied(rt: HostRuntime) -> Result<(), Fail> {
    let code = [
        Instruction::Read,
        Instruction::Number(0),
        Instruction::Compare(Cmp::Less),
        Instruction::Not,
        Instruction::Number(1),
        Instruction::Number(0),
        Instruction::Choose,
    ];
    for &(a, holds) in &DENIED {
        let list = [Some(val(a))];
        assert_eq!(rt; run(rt.alloc(), Width::Narrow, &code, &list)?, holds);
    }
    Ok(())
}

#[test]
fn branches(rt: HostRuntime) -> Result<(), Fail> {
    let code = [
        Instruction::Read,
        Instruction::Number(0),
        Instruction::Compare(Cmp::Less),
        Instruction::Read,
        Instruction::Read,
        Instruction::Choose,
    ];
    for &(a, yes, no, given) in &BRANCHES {
        let list = [Some(val(a)), Some(val(yes)), Some(val(no))];
        assert_eq!(rt; run(rt.alloc(), Width::Narrow, &code, &list)?, given);
    }
    Ok(())
}

#[test]
fn last_of_kids_or_what_stands_for_it(rt: HostRuntime) -> Result<(), Fail> {
    let code = [Instruction::Last, Instruction::Read, Instruction::Choose];
    let no_kids = [None, Some(val(Some(4)))];
    let kids = [Some(val(Some(6))), Some(val(Some(4)))];
    let unused = [Some(val(Some(6))), Some(val(None))];
    let overflow = [Some(val(None)), Some(val(Some(4)))];
    let neither = [None, Some(val(None))];
    assert_eq!(rt; run(rt.alloc(), Width::Narrow, &code, &no_kids)?, Some(4));
    assert_eq!(rt; run(rt.alloc(), Width::Narrow, &code, &kids)?, Some(6));
    assert_eq!(rt; run(rt.alloc(), Width::Narrow, &code, &unused)?, Some(6));
    assert_eq!(rt; run(rt.alloc(), Width::Narrow, &code, &overflow)?, None);
    assert_eq!(rt; run(rt.alloc(), Width::Narrow, &code, &neither)?, None);
    Ok(())
}
