//! How much the steps of each stage read.
ghost use Rattle.std.specs.Prelude.{◌≡◌, ◌<◌, ◌≤◌, ◌+◌, length, slice_index_or, slice_set, IfOk};
ghost use Rattle.ftl_model.specs.layout.Table.{instance_count};
ghost use Rattle.ftl_model.specs.layout.Tree.{size};
ghost use Rattle.ftl_order.specs.orders.Lawful.{OfClass};
ghost use Rattle.ftl_deps.specs.reads.Meant.{meant};
ghost use Rattle.ftl_schedule.specs.stages.Stages.{stages_of};
ghost use Rattle.ftl_step_value.specs.limits.reads.ReadTables.{AreTables, IsSound, class_in};
ghost use Rattle.ftl_step_value.specs.limits.reads.ReadTables.{instance_in};
ghost use Rattle.ftl_step_value.specs.limits.faults.StageReads.{AreCounts, AreFurther};
ghost use Rattle.ftl_step_value.specs.limits.faults.StageReads.{AreLittleMore};
ghost use Rattle.ftl_step_value.specs.limits.faults.StageReads.{HaveRoom, cells_before};
ghost use Rattle.ftl_step_value.specs.limits.faults.StageReads.{no_reads, or_wide, with_step};

use crate::limits::reads::{ReadTables, instance_reads};
use ftl_schedule::places::Placed;
use ftl_tree::Tree;
use std::alloc::{AllocError, Global};

/// How much the steps of a stage read in all, and how much the first of them reads that reads more
/// than 1048576.
#[derive(Clone, Copy)]
pub(crate) struct StageReads {
    pub(crate) total: u64,
    pub(crate) wide: Option<u64>,
}

/// What the steps of each stage read.
pub(crate) fn stage_reads(
    alloc: Global,
    tables: &ReadTables,
    placed: &Placed,
    tree: &Tree<'_>,
) -> Result<Vec<StageReads>, AllocError>
    requires sound { IsSound (meant tree.now.checked) }
    requires tables { AreTables (meant tree.now.checked) tables.now }
    ensures counts { IfOk result (λ v. AreCounts (meant tree.now.checked)
        (stages_of placed.now) tree.now.tree
        (instance_count (meant tree.now.checked) tree.now.tree) v.items) }
{
    let stages = placed.schedule().stages.len();
    let none = StageReads {
        total: 0,
        wide: None,
    };
    let mut counts = Vec::from_elem(alloc, none, stages)?;
    for node in 0..tree.node_count() {
        add_node(tables, placed, tree, node, counts.as_mut_slice());
    }
    Ok(counts)
}

/// Counts what the instances of a node read.
fn add_node(
    tables: &ReadTables,
    placed: &Placed,
    tree: &Tree<'_>,
    node: u32,
    counts: &mut [StageReads],
)
    requires sound { IsSound (meant tree.now.checked) }
    requires tables { AreTables (meant tree.now.checked) tables.now }
    requires node { node < size tree.now.tree }
    requires so_far { AreCounts (meant tree.now.checked) (stages_of placed.now)
        tree.now.tree (cells_before (meant tree.now.checked) tree.now.tree node) counts.old }
    requires room { HaveRoom (cells_before (meant tree.now.checked) tree.now.tree node) counts.old }
    ensures so_far { AreCounts (meant tree.now.checked) (stages_of placed.now)
        tree.now.tree (cells_before (meant tree.now.checked) tree.now.tree (node + 1)) counts.new }
    ensures room { HaveRoom (cells_before (meant tree.now.checked) tree.now.tree (node + 1))
        counts.new }
{
    let _nodes = tree.node_count();
    let _cells = tree.instance_count();
    let class = tree.class(node);
    let rows = tables.attributes.as_slice();
    for attr in rows[class as usize].as_slice() {
        add_instance(tables, placed, tree, node, *attr, counts);
    }
}

/// Counts what an instance reads, where a stage computes it; an input reads nothing.
fn add_instance(
    tables: &ReadTables,
    placed: &Placed,
    tree: &Tree<'_>,
    node: u32,
    attr: u32,
    counts: &mut [StageReads],
)
    requires sound { IsSound (meant tree.now.checked) }
    requires tables { AreTables (meant tree.now.checked) tables.now }
    requires node { node < size tree.now.tree }
    requires attr { OfClass (meant tree.now.checked) (class_in tree.now node) attr }
    requires room { HaveRoom 33554432 counts.old }
    ensures further { AreFurther (meant tree.now.checked) (stages_of placed.now)
        tree.now.tree (instance_in tree.now node attr) counts.old counts.new }
    ensures little { AreLittleMore counts.old counts.new }
{
    let stage = placed.schedule_place(attr).stage;
    if stage >= counts.len() {
        return;
    }
    let reads = instance_reads(tables, tree, node, attr);
    add_step(counts, stage, reads);
}

/// Counts a step of a stage.
fn add_step(counts: &mut [StageReads], stage: usize, reads: u64)
    requires within { stage < length counts.old }
    requires room { HaveRoom 33554432 counts.old }
    requires few { reads ≤ 268435712 }
    ensures set { counts.new ≡ slice_set counts.old stage
        (with_step (slice_index_or counts.old stage no_reads) reads) }
    ensures little { AreLittleMore counts.old counts.new }
{
    let old = counts[stage];
    counts[stage] = StageReads {
        total: old.total + reads,
        wide: or_wide(old.wide, reads),
    };
}

fn or_wide(wide: Option<u64>, reads: u64) -> Option<u64>
    ensures wide { result ≡ or_wide wide reads }
{
    match wide {
        Some(count) => Some(count),
        None => { if reads > 1048576 { Some(reads) } else { None } }
    }
}
