//! How many passes a schedule may have.

ghost use Rattle.std.specs.Prelude.{◌≡◌, ◌<◌, length};
ghost use Rattle.ftl_schedule.specs.reading.Limits.{beside_fault, limit_fault, pass_count};

use crate::names::ScheduleFault;
use crate::syntax::WrittenStage;

/// The fault of a schedule of these stages with too many passes.
pub(crate) fn limit_fault(stages: &[WrittenStage]) -> Option<ScheduleFault>
    requires passes { pass_count stages.now < 4294967296 }
    requires stages { length stages.now < 4294967295 }
    ensures fault { result ≡ limit_fault stages.now }
{
    let count = pass_count(stages);
    if count > 2048 {
        Some(ScheduleFault::TooManyPasses { count })
    } else {
        beside_fault(stages)
    }
}

fn pass_count(stages: &[WrittenStage]) -> u32
    requires passes { pass_count stages.now < 4294967296 }
    ensures count { result ≡ pass_count stages.now }
{
    let mut count = 0;
    for stage in stages {
        count += stage.passes.len() as u32;
    }
    count
}

// The first stage with too many passes.
fn beside_fault(stages: &[WrittenStage]) -> Option<ScheduleFault>
    requires passes { pass_count stages.now < 4294967296 }
    requires stages { length stages.now < 4294967295 }
    ensures fault { result ≡ beside_fault 1 stages.now }
{
    for number in 0..stages.len() {
        let count = stages[number].passes.len();
        if count > 4 {
            return Some(ScheduleFault::TooManyBeside {
                stage: number as u32 + 1,
                count: count as u32,
            });
        }
    }
    None
}
