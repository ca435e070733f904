//! The touched instances, with the values computed anew.
ghost use Rattle.std.specs.Prelude.{◌≡◌, ◌≤◌, ◌+◌, ◌<◌, [], length, IfOk, OnErr};
ghost use Rattle.std.specs.List.{All};
ghost use Rattle.std.specs.List.Sorted.{IsStrictlyIncreasing};
ghost use Rattle.ftl_model.specs.layout.Table.{SolvesList};
ghost use Rattle.ftl_order.specs.orders.Ordered.{IsOrdered};
ghost use Rattle.ftl_schedule.specs.stages.Stages.{stages_of};
ghost use Rattle.ftl_relayout.specs.laws.Edits.{AreInputEdits, with_edits};
ghost use Rattle.ftl_relayout.specs.laws.Relayout.{IsLaidOut};
ghost use Rattle.ftl_relayout.specs.queue.Trails.{total_cost, undone};
ghost use Rattle.ftl_relayout.specs.readers.Sites.{IsReaderSite, site_grammar, site_net};
ghost use Rattle.ftl_relayout.specs.relayouter.TreeRules.{run_net};

use crate::edits::write_inputs;
use crate::queue::{Before, Waiting, run_all, undo};
use crate::readers::ReaderSite;
use crate::relayouter::due::add_due;
use crate::relayouter::sorted::sorted_cells;
use crate::relayouter::tree_rules::TreeRules;
use ftl_base::Val;
use ftl_edits::Edit;
use ftl_tree::InstanceList;
use std::alloc::{AllocError, Global};

// How many stages have a row of their own at most for what waits: each call makes the rows,
// whatever it touches.
const MOST_ROWS: usize = 128;

/// The touched instances, with the values computed anew; after want of memory the values are as
/// before.
pub(crate) fn touched(
    alloc: Global,
    readers: &ReaderSite<'_>,
    rules: &mut TreeRules<'_, '_>,
    values: &mut [Val],
    edits: &[Edit],
) -> Result<InstanceList, AllocError>
    requires site { IsReaderSite readers.now }
    requires ordered { IsOrdered (site_grammar readers.now)
        (stages_of readers.now.accepted.now.schedule) }
    requires net { run_net rules.old ≡ site_net readers.now }
    requires solved { SolvesList (site_grammar readers.now) readers.now.tree.now.tree values.old }
    requires edits { AreInputEdits (site_grammar readers.now) readers.now.tree.now.tree edits.now }
    ensures laid_out { IfOk result (IsLaidOut (site_grammar readers.now)
        (with_edits (site_grammar readers.now) readers.now.tree.now.tree edits.now)
        values.old values.new) }
    ensures rising { IfOk result (λ cells. IsStrictlyIncreasing cells) }
    ensures grows { rules.old.runs ≤ rules.new.runs }
    ensures spent { IfOk result (λ cells. rules.new.runs
        ≤ rules.old.runs + total_cost (site_net readers.now).cost cells) }
    ensures programs { rules.new.programs ≡ rules.old.programs }
    ensures stay { OnErr result (values.new ≡ values.old) }
{
    let mut inputs = Vec::new(alloc);
    let mut computed = Vec::new(alloc);
    let answer = compute(
        alloc,
        readers,
        rules,
        values,
        edits,
        &mut inputs,
        &mut computed,
    );
    if answer.is_err() {
        undo(values, &mut computed);
        undo(values, &mut inputs);
    }
    answer
}

/// The same, with a trail of what was written for edits and one of what was computed.
fn compute(
    alloc: Global,
    readers: &ReaderSite<'_>,
    rules: &mut TreeRules<'_, '_>,
    values: &mut [Val],
    edits: &[Edit],
    inputs: &mut Vec<Before>,
    computed: &mut Vec<Before>,
) -> Result<InstanceList, AllocError>
    requires site { IsReaderSite readers.now }
    requires ordered { IsOrdered (site_grammar readers.now)
        (stages_of readers.now.accepted.now.schedule) }
    requires net { run_net rules.old ≡ site_net readers.now }
    requires solved { SolvesList (site_grammar readers.now) readers.now.tree.now.tree values.old }
    requires edits { AreInputEdits (site_grammar readers.now) readers.now.tree.now.tree edits.now }
    requires no_inputs { inputs.old.items ≡ [] }
    requires none_computed { computed.old.items ≡ [] }
    ensures laid_out { IfOk result (IsLaidOut (site_grammar readers.now)
        (with_edits (site_grammar readers.now) readers.now.tree.now.tree edits.now)
        values.old values.new) }
    ensures rising { IfOk result (λ cells. IsStrictlyIncreasing cells) }
    ensures grows { rules.old.runs ≤ rules.new.runs }
    ensures spent { IfOk result (λ cells. rules.new.runs
        ≤ rules.old.runs + total_cost (site_net readers.now).cost cells) }
    ensures programs { rules.new.programs ≡ rules.old.programs }
    // what a failure leaves
    ensures undone { undone inputs.new.items (undone computed.new.items values.new)
        ≡ values.old }
    ensures inputs_within { All (λ b. b.cell < length values.new) inputs.new.items }
    ensures computed_within { All (λ b. b.cell < length values.new) computed.new.items }
{
    let _nodes = readers.tree.node_count();
    let stages = readers.accepted.schedule().stages.len().min(MOST_ROWS);
    let mut waiting = Waiting::new(alloc, stages)?;
    write_inputs(readers.tree, edits, values, inputs)?;
    add_due(readers, values, edits, &mut waiting)?;
    run_all(rules, values, &mut waiting, computed)?;
    sorted_cells(alloc, computed)
}
