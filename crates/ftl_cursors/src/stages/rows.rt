//! The rows of a stage.
ghost use Rattle.std.specs.Prelude.{◌≡◌, ◌≤◌, length, Contains, IfOk};
ghost use Rattle.std.specs.List.{All};
ghost use Rattle.ftl_deps.specs.reads.Meant.{meant};
ghost use Rattle.ftl_cursors.specs.items.HostRows.{hosts_of};
ghost use Rattle.ftl_cursors.specs.stages.StageRows.{AreStageRows};

use crate::items::{TreeRows, pass_starts};
use crate::stages::tables::PassTables;
use ftl_schedule::Pass;
use ftl_visit::RuleIndex;
use std::alloc::{AllocError, Global};

/// The number of the rows of each pass of a stage, how many items come before each, and the visits
/// of each.
#[derive(Drop)]
pub struct StageRows {
    pub cuts: Vec<usize>,
    pub starts: Vec<u32>,
    pub tables: PassTables,
}

impl StageRows {
    /// The rows of the stage with these passes, which have these host classes.
    pub fn new(
        alloc: Global,
        index: &RuleIndex<'_>,
        items: &TreeRows<'_>,
        passes: &[Pass],
        hosts: &[Option<u32>],
    ) -> Result<StageRows, AllocError>
        requires few { length passes.now ≤ 2048 }
        requires count { length hosts.now ≡ length passes.now }
        requires hosts { All (Contains (hosts_of items.now)) hosts.now }
        ensures rows { IfOk result
            (AreStageRows (meant index.now) items.now passes.now hosts.now) }
    {
        let cuts = items.numbers_for(alloc, hosts)?;
        let starts = pass_starts(alloc, items, passes, cuts.as_slice())?;
        let tables = PassTables::new(alloc, index, passes)?;
        Ok(StageRows {
            cuts,
            starts,
            tables,
        })
    }
}
