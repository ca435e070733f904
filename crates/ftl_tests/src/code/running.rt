//! Running short code on short lists of reads.
ghost use Rattle.std.specs.Prelude.{◌≤◌, length};
ghost use Rattle.ftl_visit.specs.rule_code.Depth.{depth_of, Stands};

use ftl_base::{CodeStack, Val, Width};
use ftl_visit::rule_code::run_code;
use ftl_visit::{Instruction, Reads};
use std::alloc::{AllocError, Global};

/// A number, or none for Overflow.
pub(crate) type Number = Option<i64>;

#[derive(Drop)]
struct ReadList<'a> {
    list: &'a [Option<Val>],
}

impl<'a> Reads for ReadList<'a> {
    ghost list = { λ s. s.list.now };

    fn read(&self, place: usize, _there: usize) -> Option<Val> {
        self.list[place]
    }
}

/// The value of a number.
pub(crate) fn val(n: Number) -> Val {
    match n {
        Some(n) => Val::num(n),
        None => Val::overflow(),
    }
}

/// What code gives, where a fold has 10 so far.
pub(crate) fn run(
    alloc: Global,
    width: Width,
    code: &[Instruction],
    list: &[Option<Val>],
) -> Result<Number, AllocError>
    requires stands { Stands code.now 0 0 0 (length list.now) }
    requires room { depth_of code.now ≤ 4 }
{
    let mut stack = CodeStack::new(alloc, 4)?;
    let reads = ReadList { list };
    Ok(run_code(width, code, &reads, Val::num(10), &mut stack).get())
}
