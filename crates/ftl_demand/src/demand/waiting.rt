//! Steps that wait, and what they wait for.
use ftl_base::{CodeStack, Val};
use ftl_deps::PartRead;
use ftl_order::Step;
use ftl_step_value::limits::ReadTables;
use ftl_step_value::{NeighbourParts, RuleCopy};
use ftl_tree::Tree;
use ftl_visit::{Part, Programs};

/// A tree, with the tables and the code of its rules.
#[derive(Clone, Copy)]
pub(crate) struct Site<'a> {
    pub tables: &'a ReadTables,
    pub copies: &'a [RuleCopy],
    pub neighbours: &'a [NeighbourParts],
    pub programs: &'a Programs,
    pub tree: &'a Tree<'a>,
}

/// An attribute of a node.
#[derive(Clone, Copy)]
pub(crate) struct NodeAttr {
    pub node: u32,
    pub attr: u32,
}

/// A part of a step's rule with its reads, while a kid is at hand.
#[derive(Clone, Copy)]
pub(crate) struct PartReads<'a> {
    pub step: Step,
    pub part: Part,
    pub reads: &'a [PartRead],
    pub at_hand: u32,
}

/// A step that waits for what it reads.
#[derive(Clone, Copy)]
pub(crate) struct Waiting {
    pub step: Step,
    /// The cell that it fills.
    pub cell: u32,
    /// How many kids a fold has taken.
    pub taken: u32,
    /// What a fold has so far; none before its start is there.
    pub so_far: Option<Val>,
}

/// What a read gives: a value, or none where there is nothing to read; or what it lacks.
#[derive(Clone, Copy)]
pub(crate) enum Given {
    Is(Option<Val>),
    Lacks(NodeAttr),
}

/// What a part or a step gives, or the first attribute that it lacks.
#[derive(Clone, Copy)]
pub(crate) enum Outcome {
    Done(Val),
    Lacks(NodeAttr),
}

/// What is written to again and again while parts are computed.
#[derive(Drop)]
pub(crate) struct Buffers {
    /// The values of all that a step reads.
    pub reads: Vec<Val>,
    /// What the reads of a part give.
    pub values: Vec<Option<Val>>,
    /// What code runs on.
    pub stack: CodeStack,
}
