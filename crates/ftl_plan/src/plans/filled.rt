//! Which stages fill a cell.
ghost use Rattle.std.specs.Prelude.{◌≡◌, length, IfOk};
ghost use Rattle.ftl_deps.specs.reads.Meant.{meant};
ghost use Rattle.ftl_step_value.specs.limits.reads.ReadTables.{AreTables, IsSound};
ghost use Rattle.ftl_model.specs.layout.Tree.{size};
ghost use Rattle.ftl_nest_check.specs.stages.Nested.{nests_of};
ghost use Rattle.ftl_nests.specs.Nests.{outer_schedule};
ghost use Rattle.ftl_plan.specs.plans.FilledStages.{AreClassesSet, AreSetForNodes, AreStagesSet};
ghost use Rattle.ftl_plan.specs.plans.FilledStages.{StaySet};

use ftl_nest_check::AcceptedNests;
use ftl_step_value::limits::ReadTables;
use ftl_tree::Tree;
use std::alloc::{AllocError, Global};

/// So many marks, with those of the stages set in which attributes of nodes stand.
pub(crate) fn marks_for_nodes(
    alloc: Global,
    accepted: &AcceptedNests<'_>,
    tables: &ReadTables,
    tree: &Tree<'_>,
    count: usize,
) -> Result<Vec<bool>, AllocError>
    requires sound { IsSound (meant tree.now.checked) }
    requires tables { AreTables (meant tree.now.checked) tables.now }
    ensures marks { IfOk result (λ v. AreSetForNodes (meant tree.now.checked)
        (outer_schedule (nests_of accepted.now.schedule)) tree.now.tree count v.items) }
{
    let _nodes = tree.node_count();
    let rows = tables.attributes.as_slice();
    let classes = marks_of_classes(alloc, tree, rows.len())?;
    let mut marks = Vec::new(alloc);
    marks.resize(count, false)?;
    for class in 0..rows.len() {
        if classes[class] {
            set_stages(accepted, rows[class].as_slice(), &mut marks);
        }
    }
    Ok(marks)
}

/// A mark for each class, set where a node has it.
fn marks_of_classes(alloc: Global, tree: &Tree<'_>, count: usize) -> Result<Vec<bool>, AllocError>
    requires sound { IsSound (meant tree.now.checked) }
    requires count { count ≡ (meant tree.now.checked).class_count }
    ensures marks { IfOk result (λ v. AreClassesSet tree.now.tree (size tree.now.tree) v.items) }
    ensures count { IfOk result (λ v. length v.items ≡ count) }
{
    let mut marks = Vec::new(alloc);
    marks.resize(count, false)?;
    for node in 0..tree.node_count() {
        let class = tree.class(node);
        marks[class as usize] = true;
    }
    Ok(marks)
}

/// Sets the marks of the stages in which these attributes stand.
fn set_stages(accepted: &AcceptedNests<'_>, attrs: &[u32], marks: &mut Vec<bool>)
    ensures count { length marks.new.items ≡ length marks.old.items }
    ensures stay { StaySet marks.old.items marks.new.items }
    ensures set { AreStagesSet (outer_schedule (nests_of accepted.now.schedule)) attrs.now
        marks.new.items }
{
    for attr in attrs {
        let stage = accepted.placed().outer(*attr).stage;
        if stage < marks.len() {
            marks[stage] = true;
        }
    }
}
