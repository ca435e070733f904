//! The visits of passes.
ghost use Rattle.std.specs.Prelude.{IfOk};
ghost use Rattle.ftl_deps.specs.reads.Meant.{meant};
ghost use Rattle.ftl_cursors.specs.stages.PassTables.{ArePassTables};

use crate::sequence::SequencePlaces;
use ftl_schedule::Pass;
use ftl_visit::{PassVisits, RuleIndex};
use std::alloc::{AllocError, Global};

/// The visits of each of some passes, and the places of blocks in them, of which only inorder passes
/// have any.
#[derive(Drop)]
pub struct PassTables {
    pub visits: Vec<PassVisits>,
    pub places: Vec<SequencePlaces>,
}

impl PassTables {
    /// The tables of these passes.
    pub fn new(
        alloc: Global,
        index: &RuleIndex<'_>,
        passes: &[Pass],
    ) -> Result<PassTables, AllocError>
        ensures tables { IfOk result (ArePassTables (meant index.now) passes.now) }
    {
        let mut visits = Vec::with_capacity(alloc, passes.len())?;
        let mut places = Vec::with_capacity(alloc, passes.len())?;
        for pass in passes {
            let of_pass = PassVisits::new(alloc, index, pass.kind, pass.attrs.as_slice())?;
            places.push(SequencePlaces::new(alloc, &of_pass, index.checked())?)?;
            visits.push(of_pass)?;
        }
        Ok(PassTables { visits, places })
    }
}
