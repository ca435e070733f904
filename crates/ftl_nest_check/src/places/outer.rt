//! The outer schedule: each pass with the attributes of its nest behind its own.

ghost use Rattle.std.specs.Prelude.{◌≡◌, ◌++◌, map, IfOk, OnOk};
ghost use Rattle.ftl_schedule.specs.places.Entries.{attributes_of};
ghost use Rattle.ftl_schedule.specs.stages.Stages.{pass_of, stages_of};
ghost use Rattle.std.specs.Option.{option_map};
ghost use Rattle.ftl_order.specs.orders.Schedule.{entries};
ghost use Rattle.ftl_nests.specs.Nests.{inner_stages, outer_schedule, whole_pass, whole_stage};
ghost use Rattle.ftl_nest_check.specs.stages.Nested.{nest_of, nesting_pass_of, nests_of};

use crate::stages::{Nest, NestingPass, NestingSchedule};
use ftl_schedule::places::{Entry, all_entries};
use ftl_schedule::stages::PassList;
use ftl_schedule::{AttrList, Pass, Schedule, Stage};
use sqlite_items::Items;
use std::alloc::{AllocError, Global};

/// The outer schedule.
pub(crate) fn outer_of(alloc: Global, schedule: &NestingSchedule) -> Result<Schedule, AllocError>
    ensures outer { IfOk result (λ s. stages_of s ≡ outer_schedule (nests_of schedule.now)) }
{
    let mut stages = Items::new(alloc);
    let all = schedule.stages.as_slice();
    for stage in 0..all.len() {
        let passes = whole_passes(alloc, all[stage].passes.as_slice())?;
        stages.push(Stage { passes })?;
    }
    Ok(Schedule { stages })
}

fn whole_passes(alloc: Global, all: &[NestingPass]) -> Result<PassList, AllocError>
    ensures passes { IfOk result (λ found. map pass_of found
        ≡ whole_stage (map nesting_pass_of all.now)) }
{
    let mut passes = Items::new(alloc);
    for pass in 0..all.len() {
        passes.push(whole_pass(alloc, &all[pass])?)?;
    }
    Ok(passes)
}

fn whole_pass(alloc: Global, pass: &NestingPass) -> Result<Pass, AllocError>
    ensures pass { IfOk result (λ p. pass_of p ≡ whole_pass (nesting_pass_of pass.now)) }
{
    let kind = pass.kind;
    let mut attrs = Items::from_slice(alloc, pass.attrs.as_slice())?;
    add_nest(alloc, &mut attrs, &pass.nest)?;
    Ok(Pass { kind, attrs })
}

#[tactic(auto, using(ftl_schedule::proofs::places::EntryLists::entry_steps))]
fn add_nest(alloc: Global, attrs: &mut AttrList, nest: &Option<Nest>) -> Result<(), AllocError>
    ensures added { OnOk result (attrs.new
        ≡ attrs.old ++ entries (inner_stages (option_map nest_of nest.now))) }
{
    match nest {
        Some(nest) => {
            let entries = all_entries(alloc, &nest.inner)?;
            add_attributes(attrs, entries.as_slice())
        }
        None => Ok(()),
    }
}

fn add_attributes(attrs: &mut AttrList, entries: &[Entry]) -> Result<(), AllocError>
    ensures added { OnOk result (attrs.new ≡ attrs.old ++ attributes_of entries.now) }
{
    for place in 0..entries.len() {
        attrs.push(entries[place].attr)?;
    }
    Ok(())
}
