//! Trees from their rows.
ghost use Rattle.std.specs.Prelude.{◌≡◌, ◌<◌, length, map, slice_index_or, IfOk};
ghost use Rattle.std.specs.List.{All};
ghost use Rattle.ftl_model.specs.layout.AttributeGrammar.{AttributeGrammar};
ghost use Rattle.ftl_model.specs.layout.Tree.{Forest};
ghost use Rattle.ftl_deps.specs.reads.Meant.{meant};
ghost use Rattle.ftl_tree.specs.rows.ClassRows.{AreClassRows, AreInputCounts};
ghost use Rattle.ftl_tree.specs.rows.KidRuns.{HasRuns, HasSlots};
ghost use Rattle.ftl_tree.specs.rows.Rows.{IsPreorder, attribute_width, input_width, starts_by};

use crate::rows::{ClassRow, NodeRow, class_starts, kid_counts, kids_in_runs, sums};
use crate::trees::widths::{attribute_widths, child_widths, input_widths};
use ftl_checked::Checked;
use std::alloc::{AllocError, Global};

/// Where the instances of each node begin.
pub(crate) fn first_instances(
    alloc: Global,
    checked: &Checked,
    classes: &[ClassRow],
    rows: &[NodeRow],
) -> Result<Vec<u32>, AllocError>
    requires classes { AreClassRows (meant checked.now) classes.now }
    requires rows { IsPreorder (meant checked.now) rows.now }
    ensures starts { IfOk result (λ v. v.items
        ≡ starts_by (attribute_width (meant checked.now)) rows.now) }
{
    let table = attribute_widths(alloc, checked, classes)?;
    class_starts(alloc, rows, &table)
}

/// Where the inputs of each node begin.
pub(crate) fn first_inputs(
    alloc: Global,
    checked: &Checked,
    classes: &[ClassRow],
    input_counts: &[u32],
    rows: &[NodeRow],
) -> Result<Vec<u32>, AllocError>
    requires classes { AreClassRows (meant checked.now) classes.now }
    requires counts { AreInputCounts (meant checked.now) input_counts.now }
    requires rows { IsPreorder (meant checked.now) rows.now }
    ensures starts { IfOk result (λ v. v.items
        ≡ starts_by (input_width (meant checked.now)) rows.now) }
{
    let table = input_widths(alloc, checked, classes, input_counts)?;
    class_starts(alloc, rows, &table)
}

/// Where the children of each node begin.
pub(crate) fn child_slots(
    alloc: Global,
    checked: &Checked,
    rows: &[NodeRow],
) -> Result<Vec<u32>, AllocError>
    requires rows { IsPreorder (meant checked.now) rows.now }
    ensures slots { IfOk result (λ v. v.items
        ≡ starts_by (meant checked.now).child_count rows.now) }
{
    checked.grammar();
    let table = child_widths(alloc, checked)?;
    class_starts(alloc, rows, &table)
}

/// The first instance of each of some kids, by those of all nodes.
pub(crate) fn firsts_of_kids(
    alloc: Global,
    kids: &[u32],
    first_instances: &[u32],
) -> Result<Vec<u32>, AllocError>
    requires known { All (λ kid. kid < length first_instances.now) kids.now }
    ensures firsts { IfOk result (λ v. v.items
        ≡ map (λ kid. slice_index_or first_instances.now kid 0) kids.now) }
{
    let mut firsts = Vec::with_capacity(alloc, kids.len())?;
    for kid in kids {
        firsts.push(first_instances[*kid as usize])?;
    }
    Ok(firsts)
}

/// The kids of all nodes, with where the run of each child begins.
#[derive(Drop)]
pub(crate) struct KidRuns {
    pub starts: Vec<u32>,
    pub kids: Vec<u32>,
}

/// The runs of the kids of all nodes.
pub(crate) fn kid_runs(
    alloc: Global,
    rows: &[NodeRow],
    slots: &[u32],
) -> Result<KidRuns, AllocError>
    requires rows { (g : AttributeGrammar) × (t : Forest) × HasSlots g t rows.now slots.now }
    ensures runs { (g : AttributeGrammar) (t : Forest) → HasSlots g t rows.now slots.now
        → IfOk result (λ r. HasRuns g t slots.now r.starts.items r.kids.items) }
    ensures known { IfOk result (λ r. All (λ kid. kid < length rows.now) r.kids.items) }
{
    let counts = kid_counts(alloc, rows, slots)?;
    let starts = sums(alloc, &counts)?;
    let kids = kids_in_runs(alloc, rows, slots, &starts)?;
    Ok(KidRuns { starts, kids })
}
