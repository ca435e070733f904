//! How many passes a schedule with nests may have.

ghost use Rattle.std.specs.Prelude.{◌≡◌, ◌<◌, ◌++◌, length, IfOk, OnOk};
ghost use Rattle.ftl_nest_text.specs.reading.NestLimits.{beside_in, inner_sizes, inner_stage_sizes};
ghost use Rattle.ftl_nest_text.specs.reading.NestLimits.{pass_total, sizes_fault, stage_sizes};

use crate::syntax::{WrittenNestingPass, WrittenNestingStage};
use ftl_schedule::ScheduleFault;
use ftl_schedule::syntax::WrittenStage;
use sqlite_items::Items;
use std::alloc::{AllocError, Global};

/// How many passes each stage has, in the order of the stages' numbers.
pub(crate) fn stage_sizes(
    alloc: Global,
    stages: &[WrittenNestingStage],
) -> Result<Items<usize>, AllocError>
    ensures sizes { IfOk result (λ sizes. sizes ≡ stage_sizes stages.now) }
{
    let mut sizes = Items::new(alloc);
    for stage in stages {
        sizes.push(stage.passes.len())?;
        add_inner(&mut sizes, stage.passes.as_slice())?;
    }
    Ok(sizes)
}

// Adds the inner stages of some passes.
fn add_inner(sizes: &mut Items<usize>, passes: &[WrittenNestingPass]) -> Result<(), AllocError>
    ensures added { OnOk result (sizes.new ≡ sizes.old ++ inner_sizes passes.now) }
{
    for pass in passes {
        if let Some(nest) = &pass.nest {
            add_stages(sizes, nest.stages.as_slice())?;
        }
    }
    Ok(())
}

// Adds inner stages.
fn add_stages(sizes: &mut Items<usize>, stages: &[WrittenStage]) -> Result<(), AllocError>
    ensures added { OnOk result (sizes.new ≡ sizes.old ++ inner_stage_sizes stages.now) }
{
    for stage in stages {
        sizes.push(stage.passes.len())?;
    }
    Ok(())
}

/// The fault of a schedule whose stages have so many passes.
pub(crate) fn sizes_fault(sizes: &[usize]) -> Option<ScheduleFault>
    requires passes { pass_total sizes.now < 4294967296 }
    requires stages { length sizes.now < 4294967295 }
    ensures fault { result ≡ sizes_fault sizes.now }
{
    let count = pass_total(sizes);
    if count > 2048 {
        Some(ScheduleFault::TooManyPasses { count })
    } else {
        beside_fault(sizes)
    }
}

fn pass_total(sizes: &[usize]) -> u32
    requires passes { pass_total sizes.now < 4294967296 }
    ensures count { result ≡ pass_total sizes.now }
{
    let mut count = 0;
    for size in sizes {
        count += *size as u32;
    }
    count
}

// The first stage with too many passes.
fn beside_fault(sizes: &[usize]) -> Option<ScheduleFault>
    requires passes { pass_total sizes.now < 4294967296 }
    requires stages { length sizes.now < 4294967295 }
    ensures fault { result ≡ beside_in 1 sizes.now }
{
    for number in 0..sizes.len() {
        let count = sizes[number];
        if count > 4 {
            return Some(ScheduleFault::TooManyBeside {
                stage: number as u32 + 1,
                count: count as u32,
            });
        }
    }
    None
}
