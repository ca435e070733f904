//! Where the code of a rule lies.

/// Where the code of one part begins and ends among all instructions, where that which is run in
/// its place does, and how many reads it takes.
#[derive(Clone, Copy, Debug, PartialEq, Eq)]
pub(crate) struct CodeRange {
    pub(crate) start: usize,
    pub(crate) end: usize,
    pub(crate) kept_start: usize,
    pub(crate) kept_end: usize,
    pub(crate) reads: u32,
}

/// The ranges of a rule's parts, in the order of the text.
#[derive(Clone, Copy, Debug, PartialEq, Eq)]
pub(crate) enum RuleRanges {
    Plain(CodeRange),
    FirstThen(CodeRange, CodeRange),
    Fold(CodeRange, CodeRange),
}
