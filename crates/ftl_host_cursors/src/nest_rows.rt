//! What is kept of what a pass nests.
ghost use Rattle.std.specs.Prelude.{IfOk};
ghost use Rattle.ftl_deps.specs.reads.Meant.{meant};
ghost use Rattle.ftl_host_cursors.specs.NestTables.{AreNestRows};

use ftl_cursors::PassTables;
use ftl_schedule::Pass;
use ftl_visit::RuleIndex;
use std::alloc::{AllocError, Global};

/// The host class of what a pass nests, and the inner passes, stage by stage, with their tables.
#[derive(Drop)]
pub struct NestRows {
    pub host: u32,
    pub passes: Vec<Pass>,
    pub tables: PassTables,
}

impl NestRows {
    /// The rows of a nest with these inner passes, stage by stage, in each node of this class.
    pub fn new(
        alloc: Global,
        index: &RuleIndex<'_>,
        host: u32,
        passes: Vec<Pass>,
    ) -> Result<NestRows, AllocError>
        ensures rows { IfOk result (AreNestRows (meant index.now) host passes.items) }
    {
        let tables = PassTables::new(alloc, index, passes.as_slice())?;
        Ok(NestRows {
            host,
            passes,
            tables,
        })
    }
}
