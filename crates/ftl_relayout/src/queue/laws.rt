//! Laws of cells that are computed from one another.
ghost use Rattle.ftl_relayout.specs.queue.Depends.{TouchedDepend};

/// A law: a step that depends on no changed input, by the reads in any number of steps, has no read
/// that changes, so it is not run.
pub fn touched_depend()
    ensures depend { TouchedDepend }
{}
