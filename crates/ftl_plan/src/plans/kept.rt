//! What a plan keeps of a stage.

use ftl_cursors::StageRows;
use ftl_host_cursors::NestRows;
use ftl_schedule::Pass;

/// The own lists of the passes of a stage, their rows, and what each nests.
#[derive(Drop)]
pub struct PlanStage {
    pub passes: Vec<Pass>,
    pub rows: StageRows,
    pub nests: Vec<Option<NestRows>>,
}
