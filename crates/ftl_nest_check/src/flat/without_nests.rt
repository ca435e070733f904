//! The schedule without nests that computes the same values.

ghost use Rattle.std.specs.Prelude.{◌≡◌, map, IfOk};
ghost use Rattle.std.specs.List.{list_any};
ghost use Rattle.ftl_schedule.specs.stages.Stages.{stages_of};
ghost use Rattle.ftl_nest_check.specs.check.WithoutNests.{has_nest, has_nests, without_nests};
ghost use Rattle.ftl_nest_check.specs.stages.Nested.{nesting_pass_of, nests_of};

use crate::flat::flat::flat_of;
use crate::places::outer_of;
use crate::stages::{NestingPass, NestingSchedule};
use ftl_schedule::Schedule;
use std::alloc::{AllocError, Global};

/// The same stages where no pass nests a schedule; else each pass as stages of its own.
pub(crate) fn without_nests(
    alloc: Global,
    schedule: &NestingSchedule,
) -> Result<Schedule, AllocError>
    ensures stages { IfOk result (λ s. stages_of s ≡ without_nests (nests_of schedule.now)) }
{
    if has_nests(schedule) {
        flat_of(alloc, schedule)
    } else {
        outer_of(alloc, schedule)
    }
}

/// Whether some pass nests a schedule.
fn has_nests(schedule: &NestingSchedule) -> bool
    ensures nests { result ≡ has_nests (nests_of schedule.now) }
{
    let all = schedule.stages.as_slice();
    for stage in 0..all.len() {
        if stage_has_nests(all[stage].passes.as_slice()) {
            return true;
        }
    }
    false
}

fn stage_has_nests(passes: &[NestingPass]) -> bool
    ensures nests { result ≡ list_any has_nest (map nesting_pass_of passes.now) }
{
    for pass in 0..passes.len() {
        if passes[pass].nest.is_some() {
            return true;
        }
    }
    false
}
