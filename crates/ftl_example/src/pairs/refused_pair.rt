//! A pair by number.

use ftl_checked::RuleInfo;
use ftl_deps::PartRead;

/// A part of a rule.
#[derive(Clone, Copy)]
pub enum RulePart {
    /// The one expression of a rule.
    Plain,
    /// The one for the first kid.
    First,
    /// The one for each later kid.
    Then,
    /// The start of a fold.
    From,
    /// The step of a fold.
    With,
}

/// The node at which the writer runs: the reader's, its parent, or one of its kids.
#[derive(Clone, Copy)]
pub enum WriterNode {
    Same,
    Parent,
    Kid,
}

/// A read of a part of a rule, and a rule that writes what is read.
#[derive(Clone, Copy)]
pub struct RefusedPair {
    pub reader: RuleInfo,
    pub part: RulePart,
    /// The child whose kids the part goes over: that of a fold, in its step.
    pub over: Option<u32>,
    pub read: PartRead,
    pub writer: RuleInfo,
    pub runs_at: WriterNode,
}
