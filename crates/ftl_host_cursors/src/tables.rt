//! What cursors go by.

use crate::nest_rows::NestRows;
use ftl_cursors::ItemTables;
use ftl_cursors::sequence::SequencePlaces;
use ftl_schedule::Pass;
use ftl_tree::Tree;
use ftl_visit::{PassVisits, RuleTarget};

/// What a cursor goes by: for whom each rule is, a pass with the visits of its own list, the host
/// class, and the inner passes, stage by stage, with the visits of each and the places of blocks
/// in them.
#[derive(Clone, Copy)]
pub struct HostTables<'a> {
    pub tree: &'a Tree<'a>,
    pub targets: &'a [RuleTarget],
    pub pass: &'a Pass,
    pub visits: &'a PassVisits,
    pub host: Option<u32>,
    pub inner: &'a [Pass],
    pub inner_visits: &'a [PassVisits],
    pub inner_places: &'a [SequencePlaces],
}

/// What the steps of the items of a stage are told by: the own lists of its passes, and what each
/// nests.
#[derive(Clone, Copy)]
pub struct NestTables<'a> {
    pub own: ItemTables<'a>,
    pub nests: &'a [Option<NestRows>],
}
