//! What a step gives, part by part.
ghost use Rattle.std.specs.Prelude.{◌≡◌, ◌≤◌, ◌+◌, length, map};
ghost use Rattle.ftl_deps.specs.parts.RuleParts.{parts_named, read_meant};
ghost use Rattle.ftl_deps.specs.reads.Meant.{meant};
ghost use Rattle.ftl_model.specs.layout.AttributeGrammar.{fold_over};
ghost use Rattle.ftl_model.specs.layout.Table.{instance_count, value_in};
ghost use Rattle.ftl_order.specs.orders.Lawful.{EachMay};
ghost use Rattle.ftl_order.specs.steps.Steps.{IsStepOf, rule_at, target_of};
ghost use Rattle.ftl_step_value.specs.value.Sites.{IsPartFor};
ghost use Rattle.ftl_step_value.specs.value.StepValue.{value_of_step};
ghost use Rattle.ftl_visit.specs.rule_values.PartValues.{part_of};
ghost use Rattle.ftl_visit.specs.step_reads.StepReads.{AreOfChildren, IsOfChildren, children_in};
ghost use Rattle.ftl_visit.specs.step_reads.StepReads.{kids_in};
ghost use Rattle.ftl_relayout.specs.laws.TreeNets.{cost_at};
ghost use Rattle.ftl_relayout.specs.values.PartSites.{CanRun, IsSite};

use crate::values::part::part_value;
use crate::values::sites::{Buffers, PartReads, Site};
use ftl_base::Val;
use ftl_deps::{PartRead, RuleParts};
use ftl_order::Step;
use ftl_step_value::cells::step_parts;
use ftl_visit::{Part, Runner, parts_give_the_rule};

/// What a step gives by the values there are. It counts as one run, and as one more for each kid of
/// a fold.
pub(crate) fn value_of(
    site: &Site<'_>,
    step: Step,
    values: &[Val],
    runner: &mut Runner<'_>,
    buffers: &mut Buffers,
) -> Val
    requires site { IsSite site.now }
    requires step { IsStepOf (meant site.now.tree.now.checked) site.now.tree.now.tree step }
    requires values { length values.now
        ≡ instance_count (meant site.now.tree.now.checked) site.now.tree.now.tree }
    requires runs { CanRun site.now.tree.now.checked runner.old buffers.old }
    ensures value { result ≡ value_of_step (meant site.now.tree.now.checked) site.now.tree.now.tree
        (value_in (meant site.now.tree.now.checked) site.now.tree.now.tree values.now) step }
    ensures grows { runner.old.runs ≤ runner.new.runs }
    ensures count { runner.new.runs ≤ runner.old.runs
        + cost_at (meant site.now.tree.now.checked) site.now.tree.now.tree
        (target_of (meant site.now.tree.now.checked) site.now.tree.now.tree step) }
    ensures programs { runner.new.programs ≡ runner.old.programs }
    ensures runs { CanRun site.now.tree.now.checked runner.new buffers.new }
{
    let _nodes = site.tree.node_count();
    match step_parts(site.tables, site.tree, step) {
        RuleParts::Plain(reads) => {
            let reads = reads.as_slice();
            one_part(site, step, Part::Plain, reads, values, runner, buffers)
        }
        RuleParts::FirstThen(first, _) if step.kid == 0 => {
            let reads = first.as_slice();
            one_part(site, step, Part::First, reads, values, runner, buffers)
        }
        RuleParts::FirstThen(_, later) => {
            let reads = later.as_slice();
            one_part(site, step, Part::Then, reads, values, runner, buffers)
        }
        RuleParts::FoldOver(child, start, each) => {
            let fold = Fold {
                child: *child,
                start: start.as_slice(),
                each: each.as_slice(),
            };
            fold_value(site, step, &fold, values, runner, buffers)
        }
    }
}

/// What a step gives for which its rule has this part alone.
fn one_part(
    site: &Site<'_>,
    step: Step,
    part: Part,
    reads: &[PartRead],
    values: &[Val],
    runner: &mut Runner<'_>,
    buffers: &mut Buffers,
) -> Val
    requires site { IsSite site.now }
    requires step { IsStepOf (meant site.now.tree.now.checked) site.now.tree.now.tree step }
    requires part { IsPartFor (parts_named (meant site.now.tree.now.checked)
        (rule_at (meant site.now.tree.now.checked) step.rule)) step.kid (part_of part)
        (map read_meant reads.now) }
    requires children { EachMay (IsOfChildren (children_in site.now.tree.now step.node))
        (map read_meant reads.now) }
    requires few { length reads.now ≤ 256 }
    requires values { length values.now
        ≡ instance_count (meant site.now.tree.now.checked) site.now.tree.now.tree }
    requires runs { CanRun site.now.tree.now.checked runner.old buffers.old }
    ensures value { result ≡ value_of_step (meant site.now.tree.now.checked) site.now.tree.now.tree
        (value_in (meant site.now.tree.now.checked) site.now.tree.now.tree values.now) step }
    ensures grows { runner.old.runs ≤ runner.new.runs }
    ensures count { runner.new.runs ≤ runner.old.runs + 1 }
    ensures programs { runner.new.programs ≡ runner.old.programs }
    ensures runs { CanRun site.now.tree.now.checked runner.new buffers.new }
{
    parts_give_the_rule();
    let _nodes = site.tree.node_count();
    let _lawful = site.tree.checked().grammar();
    let part = PartReads {
        step,
        part,
        reads,
        at_hand: step.kid,
    };
    part_value(site.tree, &part, Val::overflow(), values, runner, buffers)
}

/// A fold over the kids of a child: its start, and the step that it takes at each kid.
#[derive(Clone, Copy)]
struct Fold<'a> {
    child: u32,
    start: &'a [PartRead],
    each: &'a [PartRead],
}

/// What a step gives whose rule is a fold: its start, and then its step for each kid.
fn fold_value(
    site: &Site<'_>,
    step: Step,
    fold: &Fold<'_>,
    values: &[Val],
    runner: &mut Runner<'_>,
    buffers: &mut Buffers,
) -> Val
    requires site { IsSite site.now }
    requires step { IsStepOf (meant site.now.tree.now.checked) site.now.tree.now.tree step }
    requires fold { parts_named (meant site.now.tree.now.checked)
        (rule_at (meant site.now.tree.now.checked) step.rule)
        ≡ fold_over fold.now.child (map read_meant fold.now.start.now)
        (map read_meant fold.now.each.now) }
    requires children { AreOfChildren (children_in site.now.tree.now step.node)
        (fold_over fold.now.child (map read_meant fold.now.start.now)
        (map read_meant fold.now.each.now)) }
    requires few_start { length fold.now.start.now ≤ 256 }
    requires few_each { length fold.now.each.now ≤ 256 }
    requires values { length values.now
        ≡ instance_count (meant site.now.tree.now.checked) site.now.tree.now.tree }
    requires runs { CanRun site.now.tree.now.checked runner.old buffers.old }
    ensures value { result ≡ value_of_step (meant site.now.tree.now.checked) site.now.tree.now.tree
        (value_in (meant site.now.tree.now.checked) site.now.tree.now.tree values.now) step }
    ensures grows { runner.old.runs ≤ runner.new.runs }
    ensures count { runner.new.runs ≤ runner.old.runs
        + (1 + kids_in site.now.tree.now step.node fold.now.child) }
    ensures programs { runner.new.programs ≡ runner.old.programs }
    ensures runs { CanRun site.now.tree.now.checked runner.new buffers.new }
{
    parts_give_the_rule();
    let tree = site.tree;
    let _nodes = tree.node_count();
    let _lawful = tree.checked().grammar();
    let start = PartReads {
        step,
        part: Part::From,
        reads: fold.start,
        at_hand: step.kid,
    };
    let mut so_far = part_value(tree, &start, Val::overflow(), values, runner, buffers);
    for kid in 0..tree.kid_count(step.node, fold.child) {
        let each = PartReads {
            step,
            part: Part::With,
            reads: fold.each,
            at_hand: kid,
        };
        so_far = part_value(tree, &each, so_far, values, runner, buffers);
    }
    so_far
}
