//! Each pass as stages of its own.

ghost use Rattle.std.specs.Prelude.{◌≡◌, ◌++◌, [], ◌∷◌, map, IfOk, OnOk};
ghost use Rattle.ftl_schedule.specs.stages.Stages.{kind_of, pass_of, stages_of};
ghost use Rattle.ftl_nests.specs.Flat.{alone_stage, each_alone, flat_pass, flat_schedule};
ghost use Rattle.ftl_nests.specs.Flat.{flat_stage, own_stage};
ghost use Rattle.ftl_nests.specs.Nests.{inner_stages};
ghost use Rattle.std.specs.Option.{option_map};
ghost use Rattle.ftl_nest_check.specs.flat.FlatStages.{stages_in};
ghost use Rattle.ftl_nest_check.specs.stages.Nested.{nest_of, nesting_pass_of, nests_of};

use crate::stages::{Nest, NestingPass, NestingSchedule};
use ftl_schedule::stages::StageList;
use ftl_schedule::{Pass, PassKind, Schedule, Stage};
use sqlite_items::Items;
use std::alloc::{AllocError, Global};

/// The schedule without nests.
pub fn flat_of(alloc: Global, schedule: &NestingSchedule) -> Result<Schedule, AllocError>
    ensures flat { IfOk result (λ s. stages_of s ≡ flat_schedule (nests_of schedule.now)) }
{
    let mut stages = Items::new(alloc);
    let all = schedule.stages.as_slice();
    for stage in 0..all.len() {
        add_stage(alloc, &mut stages, all[stage].passes.as_slice())?;
    }
    Ok(Schedule { stages })
}

fn add_stage(
    alloc: Global,
    stages: &mut StageList,
    passes: &[NestingPass],
) -> Result<(), AllocError>
    ensures added { OnOk result (stages_in stages.new
        ≡ stages_in stages.old ++ flat_stage (map nesting_pass_of passes.now)) }
{
    for pass in 0..passes.len() {
        add_pass(alloc, stages, &passes[pass])?;
    }
    Ok(())
}

/// A nest runs before the rules of a bottomup pass, and behind those of a topdown one.
fn add_pass(alloc: Global, stages: &mut StageList, pass: &NestingPass) -> Result<(), AllocError>
    ensures added { OnOk result (stages_in stages.new
        ≡ stages_in stages.old ++ flat_pass (nesting_pass_of pass.now)) }
{
    match pass.kind {
        PassKind::BottomUp => {
            add_nest(alloc, stages, &pass.nest)?;
            add_own(alloc, stages, pass)
        }
        PassKind::TopDown | PassKind::InOrder => {
            add_own(alloc, stages, pass)?;
            add_nest(alloc, stages, &pass.nest)
        }
    }
}

fn add_own(alloc: Global, stages: &mut StageList, pass: &NestingPass) -> Result<(), AllocError>
    ensures added { OnOk result (stages_in stages.new
        ≡ stages_in stages.old ++ own_stage (nesting_pass_of pass.now)) }
{
    add_alone(alloc, stages, pass.kind, pass.attrs.as_slice())
}

fn add_nest(alloc: Global, stages: &mut StageList, nest: &Option<Nest>) -> Result<(), AllocError>
    ensures added { OnOk result (stages_in stages.new
        ≡ stages_in stages.old ++ each_alone (inner_stages (option_map nest_of nest.now))) }
{
    match nest {
        Some(nest) => add_inner(alloc, stages, nest.inner.stages.as_slice()),
        None => Ok(()),
    }
}

fn add_inner(alloc: Global, stages: &mut StageList, inner: &[Stage]) -> Result<(), AllocError>
    ensures added { OnOk result (stages_in stages.new
        ≡ stages_in stages.old ++ each_alone (stages_in inner.now)) }
{
    for stage in 0..inner.len() {
        add_passes(alloc, stages, inner[stage].passes.as_slice())?;
    }
    Ok(())
}

fn add_passes(alloc: Global, stages: &mut StageList, passes: &[Pass]) -> Result<(), AllocError>
    ensures added { OnOk result (stages_in stages.new
        ≡ stages_in stages.old ++ alone_stage (map pass_of passes.now)) }
{
    for pass in 0..passes.len() {
        add_alone(
            alloc,
            stages,
            passes[pass].kind,
            passes[pass].attrs.as_slice(),
        )?;
    }
    Ok(())
}

/// Adds a pass as the only one of a stage.
fn add_alone(
    alloc: Global,
    stages: &mut StageList,
    kind: PassKind,
    attrs: &[u32],
) -> Result<(), AllocError>
    ensures added { OnOk result (stages_in stages.new ≡ stages_in stages.old
        ++ ((record { kind = kind_of kind; attributes = attrs.now } ∷ []) ∷ [])) }
{
    let mut passes = Items::new(alloc);
    let attrs = Items::from_slice(alloc, attrs)?;
    passes.push(Pass { kind, attrs })?;
    stages.push(Stage { passes })
}
