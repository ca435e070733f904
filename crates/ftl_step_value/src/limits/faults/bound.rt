//! A bound of what steps read, by counts alone.
ghost use Rattle.std.specs.Prelude.{◌≡◌, ◌+◌, ◌*◌, ◌≤◌, length};
ghost use Rattle.std.specs.Bool.{OnTrue};
ghost use Rattle.std.specs.List.{All};
ghost use Rattle.ftl_model.specs.layout.Table.{instance_count};
ghost use Rattle.ftl_model.specs.layout.Tree.{size};
ghost use Rattle.ftl_deps.specs.reads.Meant.{meant};
ghost use Rattle.ftl_deps.specs.parts.RuleParts.{parts_meant};
ghost use Rattle.ftl_visit.specs.step_reads.StepReads.{HasFewReads};
ghost use Rattle.ftl_step_value.specs.limits.reads.ReadTables.{AreTables, IsSound};
ghost use Rattle.ftl_step_value.specs.limits.faults.ReadBound.{HasNoFault, IsNoLess};
ghost use Rattle.ftl_step_value.specs.limits.faults.ReadBound.{IsWithinReadLimit};
ghost use Rattle.ftl_step_value.specs.limits.faults.ReadBound.{KidsWithin, PartsWithin};

use crate::limits::reads::ReadTables;
use ftl_deps::RuleParts;
use ftl_tree::Tree;
use sqlite_items::Items;

/// The greatest number of reads of a part that is read once, and of a fold's step, which is read
/// at each kid.
#[derive(Clone, Copy)]
pub(crate) struct RuleBound {
    pub(crate) once: u64,
    pub(crate) each: u64,
}

/// Whether counts alone rule out each fault. Takes time as there are nodes.
pub(crate) fn is_far_from_limits(tables: &ReadTables, tree: &Tree<'_>) -> bool
    requires sound { IsSound (meant tree.now.checked) }
    requires tables { AreTables (meant tree.now.checked) tables.now }
    ensures none { OnTrue result (HasNoFault (meant tree.now.checked) tree.now.tree) }
{
    let _nodes = tree.node_count();
    let rules = rule_bound(tables.parts.as_slice());
    let widest = greatest_width(tables.attributes.as_slice());
    if total_bound(rules, widest, tree) > 67108864 {
        return false;
    }
    rules.once + rules.each * most_kids(tree) <= 1048576
}

/// How much all steps read at most. Each node but the root is a kid of one other, whose folds come
/// to it.
fn total_bound(rules: RuleBound, widest: u64, tree: &Tree<'_>) -> u64
    requires small { IsWithinReadLimit rules }
    requires narrow { widest ≤ 128 }
    ensures total { result
        ≡ rules.once * instance_count (meant tree.now.checked) tree.now.tree
        + rules.each * widest * size tree.now.tree }
{
    let starts = rules.once * tree.instance_count() as u64;
    let folds = rules.each * widest * tree.node_count() as u64;
    starts + folds
}

/// The bound of some rules.
fn rule_bound(rows: &[RuleParts]) -> RuleBound
    requires few { All (λ parts. HasFewReads (parts_meant parts)) rows.now }
    ensures within { All (λ parts. PartsWithin result (parts_meant parts)) rows.now }
    ensures small { IsWithinReadLimit result }
{
    let mut bound = RuleBound { once: 0, each: 0 };
    for parts in rows {
        bound = with_rule(bound, parts);
    }
    bound
}

/// The bound of one rule more.
fn with_rule(bound: RuleBound, parts: &RuleParts) -> RuleBound
    requires small { IsWithinReadLimit bound }
    requires few { HasFewReads (parts_meant parts.now) }
    ensures within { PartsWithin result (parts_meant parts.now) }
    ensures no_less { IsNoLess bound result }
    ensures small { IsWithinReadLimit result }
{
    match parts {
        RuleParts::Plain(reads) => with_once(bound, reads.len()),
        RuleParts::FirstThen(first, later) => {
            let longer = with_once(bound, first.len());
            with_once(longer, later.len())
        }
        RuleParts::FoldOver(_, start, step) => {
            let longer = with_once(bound, start.len());
            RuleBound {
                once: longer.once,
                each: longer.each.max(step.len() as u64),
            }
        }
    }
}

/// With a part that is read once.
fn with_once(bound: RuleBound, reads: usize) -> RuleBound
    requires small { IsWithinReadLimit bound }
    requires few { reads ≤ 256 }
    ensures within { reads ≤ result.once }
    ensures no_less { IsNoLess bound result }
    ensures small { IsWithinReadLimit result }
{
    RuleBound {
        once: bound.once.max(reads as u64),
        each: bound.each,
    }
}

/// The greatest number of attributes of a class.
fn greatest_width(rows: &[Items<u32>]) -> u64
    requires narrow { All (λ row. length row ≤ 128) rows.now }
    ensures within { All (λ row. length row ≤ result) rows.now }
    ensures narrow { result ≤ 128 }
{
    let mut widest = 0;
    for row in rows {
        widest = widest.max(row.len() as u64);
    }
    widest
}

/// The greatest number of kids in a child of a node, or one where there are none.
fn most_kids(tree: &Tree<'_>) -> u64
    ensures within { KidsWithin tree.now.tree result }
    ensures bound { result ≤ 4294967296 }
{
    let mut most = 0;
    for node in 0..tree.node_count() {
        most = most.max(tree.row(node).place.kid as u64 + 1);
    }
    most
}
