//! The call that lays a tree out anew.

ghost use Rattle.std.specs.Prelude.{◌≡◌, ◌+◌, ◌≤◌, IfOk, OnErr};
ghost use Rattle.std.specs.List.Sorted.{IsStrictlyIncreasing};
ghost use Rattle.ftl_deps.specs.reads.Meant.{meant};
ghost use Rattle.ftl_edits.specs.meaning.Editable.{AreEditsOf};
ghost use Rattle.ftl_model.specs.layout.Table.{SolvesList};
ghost use Rattle.ftl_step_value.specs.value.StepValue.{IsCodeFor};
ghost use Rattle.ftl_relayout.specs.relaid.Relaid.{IsRelaid, edited_tree, relayout_cost};

use crate::relayouter::Relayouter;
use ftl_base::Val;
use ftl_checked::Checked;
use ftl_edits::EditList;
use ftl_schedule::Accepted;
use ftl_tree::{InstanceList, Tree};
use ftl_visit::Runner;
use std::alloc::{AllocError, Global};

/// Applies the edits to the tree, and computes the values anew that they touch. The answer has the
/// numbers of the touched instances. The tables of the grammar are made for this call; who lays out
/// trees of one grammar again and again keeps a `Relayouter`.
pub fn relayout(
    alloc: Global,
    checked: &Checked,
    accepted: &Accepted<'_>,
    runner: &mut Runner<'_>,
    tree: &mut Tree<'_>,
    values: &mut [Val],
    edits: &EditList,
) -> Result<InstanceList, AllocError>
    requires grammar { tree.old.checked ≡ checked.now }
    requires accepted { accepted.now.checked ≡ checked.now }
    requires code { IsCodeFor checked.now runner.old.programs }
    requires values { SolvesList (meant checked.now) tree.old.tree values.old }
    requires edits { AreEditsOf tree.old edits.now }
    // what it gives
    ensures tree { IfOk result (λ _. tree.new.tree
        ≡ edited_tree checked.now tree.old.tree edits.now) }
    ensures relaid { IfOk result (λ touched.
        IsRelaid checked.now tree.new.tree values.old values.new touched) }
    ensures rising { IfOk result (λ touched. IsStrictlyIncreasing touched) }
    ensures grows { IfOk result (λ _. runner.old.runs ≤ runner.new.runs) }
    ensures runs { IfOk result (λ touched. runner.new.runs
        ≤ runner.old.runs + relayout_cost checked.now tree.new.tree touched) }
    // what stays
    ensures grammar { tree.new.checked ≡ checked.now }
    ensures programs { IfOk result (λ _. runner.new.programs ≡ runner.old.programs) }
    ensures tree_stays { OnErr result (tree.new ≡ tree.old) }
    ensures values_stay { OnErr result (values.new ≡ values.old) }
    ensures runner_stays { OnErr result (runner.new ≡ runner.old) }
{
    // Its contract says that this is a tree of its grammar.
    let _nodes = tree.node_count();
    let relayouter = Relayouter::new(alloc, checked, accepted)?;
    relayouter.relayout(alloc, runner, tree, values, edits)
}
