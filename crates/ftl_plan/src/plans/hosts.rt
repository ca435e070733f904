//! The host classes of what the passes of a schedule nest, each once.
ghost use Rattle.std.specs.Prelude.{◌≡◌, true, Contains, IfOk, OnOk};
ghost use Rattle.std.specs.List.{All};
ghost use Rattle.std.specs.Option.{option_map};
ghost use Rattle.ftl_nests.specs.Nests.{host_of};
ghost use Rattle.ftl_nest_check.specs.stages.Nested.{nest_of};
ghost use Rattle.ftl_plan.specs.plans.PlannedStages.{HasAll, HasHost, HasHosts, pass_hosts};

use ftl_nest_check::{Nest, NestingPass, NestingStage};
use std::alloc::{AllocError, Global};

/// The host classes of these stages.
pub(crate) fn nest_hosts(alloc: Global, stages: &[NestingStage]) -> Result<Vec<u32>, AllocError>
    ensures hosts { IfOk result (λ v. All (HasHosts v.items) stages.now) }
{
    let mut hosts = Vec::new(alloc);
    for stage in stages {
        add_hosts(&mut hosts, stage.passes.as_slice())?;
    }
    Ok(hosts)
}

/// Adds those of the passes of a stage.
fn add_hosts(hosts: &mut Vec<u32>, passes: &[NestingPass]) -> Result<(), AllocError>
    ensures kept { OnOk result (HasAll hosts.old.items hosts.new.items) }
    ensures hosts { OnOk result (All (HasHost hosts.new.items) (pass_hosts passes.now)) }
{
    for pass in passes {
        add_host(hosts, &pass.nest)?;
    }
    Ok(())
}

/// Adds that of a nest, where there is one.
fn add_host(hosts: &mut Vec<u32>, nest: &Option<Nest>) -> Result<(), AllocError>
    ensures kept { OnOk result (HasAll hosts.old.items hosts.new.items) }
    ensures host { OnOk result (HasHost hosts.new.items (host_of (option_map nest_of nest.now))) }
{
    match nest {
        Some(nest) => add_class(hosts, nest.host),
        None => Ok(()),
    }
}

/// Adds a class, unless it is there.
fn add_class(hosts: &mut Vec<u32>, class: u32) -> Result<(), AllocError>
    ensures kept { OnOk result (HasAll hosts.old.items hosts.new.items) }
    ensures class { OnOk result (Contains hosts.new.items class) }
{
    if is_among(class, hosts.as_slice()) {
        return Ok(());
    }
    hosts.push(class)?;
    Ok(())
}

/// Whether the class is one of these; false tells nothing.
fn is_among(class: u32, hosts: &[u32]) -> bool
    ensures among { result ≡ true → Contains hosts.now class }
{
    for host in hosts {
        if *host == class {
            return true;
        }
    }
    false
}
