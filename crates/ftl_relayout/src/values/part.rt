//! What a part of a rule gives, by a runner.
ghost use Rattle.std.specs.Prelude.{◌≡◌, ◌≤◌, ◌+◌, length};
ghost use Rattle.ftl_deps.specs.reads.Meant.{meant};
ghost use Rattle.ftl_model.specs.layout.Table.{instance_count};
ghost use Rattle.ftl_step_value.specs.value.StepValue.{IsCodeFor};
ghost use Rattle.ftl_relayout.specs.values.PartSites.{CanRun, IsPartOf, IsRoomFor, part_gives};

use crate::values::reads::load;
use crate::values::sites::{Buffers, PartReads};
use ftl_base::{CodeStack, Val};
use ftl_tree::Tree;
use ftl_visit::{Runner, parts_give_the_rule};

/// What a part gives, with what a fold has so far. It counts as one run.
pub(crate) fn part_value(
    tree: &Tree<'_>,
    part: &PartReads<'_>,
    so_far: Val,
    values: &[Val],
    runner: &mut Runner<'_>,
    buffers: &mut Buffers,
) -> Val
    requires part { IsPartOf tree.now part.now }
    requires values { length values.now ≡ instance_count (meant tree.now.checked) tree.now.tree }
    requires runs { CanRun tree.now.checked runner.old buffers.old }
    ensures value { result ≡ part_gives tree.now values.now part.now so_far }
    ensures grows { runner.old.runs ≤ runner.new.runs }
    ensures count { runner.new.runs ≤ runner.old.runs + 1 }
    ensures programs { runner.new.programs ≡ runner.old.programs }
    ensures runs { CanRun tree.now.checked runner.new buffers.new }
{
    run_part(
        tree,
        part,
        so_far,
        values,
        runner,
        &mut buffers.reads,
        &mut buffers.stack,
    )
}

/// The same, with a row for what its reads give and a stack for its code.
fn run_part(
    tree: &Tree<'_>,
    part: &PartReads<'_>,
    so_far: Val,
    values: &[Val],
    runner: &mut Runner<'_>,
    row: &mut [Option<Val>],
    stack: &mut CodeStack,
) -> Val
    requires part { IsPartOf tree.now part.now }
    requires values { length values.now ≡ instance_count (meant tree.now.checked) tree.now.tree }
    requires code { IsCodeFor tree.now.checked runner.old.programs }
    requires room { IsRoomFor runner.old.programs stack.old.room }
    requires row { 256 ≤ length row.old }
    ensures value { result ≡ part_gives tree.now values.now part.now so_far }
    ensures grows { runner.old.runs ≤ runner.new.runs }
    ensures count { runner.new.runs ≤ runner.old.runs + 1 }
    ensures programs { runner.new.programs ≡ runner.old.programs }
    ensures room { stack.new.room ≡ stack.old.room }
{
    parts_give_the_rule();
    // So it is known to be a number of 64 bits.
    let _before = runner.runs();
    let step = part.step;
    load(tree, step.node, part.at_hand, part.reads, values, row);
    let given = &row[..part.reads.len()];
    runner.run(step.rule, part.part, given, so_far, stack)
}
