//! Faults of plans.

ghost use Rattle.std.specs.Prelude.{◌≡◌, ◌++◌, OnOk};
ghost use Rattle.std.specs.Fmt.{decimal};
ghost use Rattle.ftl_answer.specs.refusals.PlanLines.{plan_line};

use crate::refusals::pieces::{numbered, numbered_large};
use ftl_step_value::limits::PlanFault;
use std::alloc::AllocError;

/// Adds the line of a plan's first fault.
pub fn write_plan_fault(out: &mut Vec<u8>, fault: PlanFault) -> Result<(), AllocError>
    ensures line { OnOk result (out.new.items ≡ out.old.items ++ plan_line fault) }
{
    match fault {
        PlanFault::TooManyReads { stage, count } => {
            in_stage(
                out,
                "refused document: too many reads in stage ",
                stage,
                ": ",
                count,
            )
        }
        PlanFault::StepTooWide { stage, count } => {
            let what = "refused document: too many reads of one rule in stage ";
            in_stage(out, what, stage, ": ", count)
        }
        PlanFault::OutOfMemory => Ok(()),
    }
}

/// Adds a text, the number of a stage, another text and a count.
fn in_stage(
    out: &mut Vec<u8>,
    before: &str,
    stage: u32,
    between: &str,
    count: u64,
) -> Result<(), AllocError>
    ensures added { OnOk result (out.new.items ≡ out.old.items
        ++ (before.now ++ (decimal stage ++ (between.now ++ decimal count)))) }
{
    numbered(out, before, stage)?;
    numbered_large(out, between, count)
}
