use ftl_base::{Cmp, Truth};

/// One instruction of code, without names. An operator stands after its operands.
#[derive(Clone, Copy, Debug, PartialEq, Eq)]
pub enum Instruction {
    Number(u32),
    /// The next of the reads.
    Read,
    /// The next of the reads, where there may be nothing: whether there is something, and its
    /// value. The code of what stands for it where there is nothing follows, and then `Choose`.
    Last,
    /// What a fold has so far.
    Accumulator,
    Negate,
    Add,
    Subtract,
    Multiply,
    /// By a whole number from 1 to 2147483647.
    Divide(u32),
    Least,
    Greatest,
    /// Of a truth and two numbers, the first number where the truth holds, and else the second.
    Choose,
    Compare(Cmp),
    Not,
    Both,
    Either,
    /// A number that was computed when the code was made; one out of range stands for Overflow.
    Constant(i64),
    /// A truth that was.
    Known(Truth),
}
