//! The passes of a stage without what they nest, the host classes of that, and its passes.
ghost use Rattle.std.specs.Prelude.{◌≡◌, ◌++◌, map, IfOk, OnOk};
ghost use Rattle.std.specs.Option.{option_map};
ghost use Rattle.ftl_schedule.specs.stages.Stages.{pass_of};
ghost use Rattle.ftl_nests.specs.Nests.{host_of};
ghost use Rattle.ftl_nest_check.specs.flat.FlatStages.{stages_in};
ghost use Rattle.ftl_nest_check.specs.stages.Nested.{nest_of};
ghost use Rattle.ftl_host_cursors.specs.HostLaws.{passes_in_order};
ghost use Rattle.ftl_plan.specs.plans.PlannedStages.{own_passes, pass_hosts};

use ftl_nest_check::{Nest, NestingPass};
use ftl_schedule::{Pass, PassKind, Stage};
use sqlite_items::Items;
use std::alloc::{AllocError, Global};

/// The passes with their own lists alone.
pub(crate) fn own_passes(alloc: Global, passes: &[NestingPass]) -> Result<Vec<Pass>, AllocError>
    ensures passes { IfOk result (λ v. v.items ≡ own_passes passes.now) }
{
    let mut own = Vec::with_capacity(alloc, passes.len())?;
    for pass in 0..passes.len() {
        own.push(pass_with(alloc, passes[pass].kind, passes[pass].attrs.as_slice())?)?;
    }
    Ok(own)
}

/// The host classes of what these passes nest.
pub(crate) fn pass_hosts(
    alloc: Global,
    passes: &[NestingPass],
) -> Result<Vec<Option<u32>>, AllocError>
    ensures hosts { IfOk result (λ v. v.items ≡ pass_hosts passes.now) }
{
    let mut hosts = Vec::with_capacity(alloc, passes.len())?;
    for pass in 0..passes.len() {
        hosts.push(nest_host(&passes[pass].nest))?;
    }
    Ok(hosts)
}

/// The host class of a nest, where there is one.
fn nest_host(nest: &Option<Nest>) -> Option<u32>
    ensures host { result ≡ host_of (option_map nest_of nest.now) }
{
    match nest {
        Some(nest) => Some(nest.host),
        None => None,
    }
}

/// The passes of inner stages, stage by stage.
pub(crate) fn inner_passes(alloc: Global, stages: &[Stage]) -> Result<Vec<Pass>, AllocError>
    ensures passes { IfOk result (λ v. map pass_of v.items
        ≡ passes_in_order (stages_in stages.now)) }
{
    let mut all = Vec::new(alloc);
    for stage in 0..stages.len() {
        add_passes(alloc, &mut all, stages[stage].passes.as_slice())?;
    }
    Ok(all)
}

/// Adds the passes of a stage.
fn add_passes(alloc: Global, all: &mut Vec<Pass>, passes: &[Pass]) -> Result<(), AllocError>
    ensures added { OnOk result (map pass_of all.new.items
        ≡ map pass_of all.old.items ++ map pass_of passes.now) }
{
    for pass in 0..passes.len() {
        all.push(pass_with(alloc, passes[pass].kind, passes[pass].attrs.as_slice())?)?;
    }
    Ok(())
}

/// A pass of this kind with this list.
fn pass_with(alloc: Global, kind: PassKind, attrs: &[u32]) -> Result<Pass, AllocError>
    ensures pass { IfOk result (λ p. p ≡ record { kind = kind; attrs = attrs.now }) }
{
    let attrs = Items::from_slice(alloc, attrs)?;
    Ok(Pass { kind, attrs })
}
