//! Trees with their tables, and parts of rules at nodes.
use ftl_base::{CodeStack, Val};
use ftl_deps::PartRead;
use ftl_order::Step;
use ftl_step_value::limits::ReadTables;
use ftl_tree::Tree;
use ftl_visit::Part;

/// A tree, with the tables of its grammar.
#[derive(Clone, Copy)]
pub(crate) struct Site<'a> {
    pub tables: &'a ReadTables,
    pub tree: &'a Tree<'a>,
}

/// A part of a step's rule with its reads, while a kid is at hand.
#[derive(Clone, Copy)]
pub(crate) struct PartReads<'a> {
    pub step: Step,
    pub part: Part,
    pub reads: &'a [PartRead],
    pub at_hand: u32,
}

/// What is written to again and again while parts are run.
#[derive(Drop)]
pub(crate) struct Buffers {
    /// What the reads of a part give.
    pub reads: Vec<Option<Val>>,
    /// What code runs on.
    pub stack: CodeStack,
}
